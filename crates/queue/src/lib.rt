//! A priority queue over lent slots, for every kind of entry whose order is total.

#![tactic(auto)]

mod entry;
mod heap;
mod sift;

pub use entry::{Entry, first_is_one_stands};
pub use heap::Queue;
