//! Work lists: the nodes whose turn is still to come.

#![tactic(auto)]

mod fifo;
mod list;
mod nodes;

pub use fifo::Fifo;
pub use list::{MOST_NODES, WorkList, set_laws_stand};
pub use nodes::NodeSet;
