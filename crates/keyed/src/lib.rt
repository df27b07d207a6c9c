//! A work list that takes the node with the smallest key.

#![tactic(auto)]

mod list;
mod node;

pub use list::Keyed;
pub use node::KeyedNode;
