//! Turns of the nodes that wait, for every network and every work list.

#![tactic(auto)]

mod turning;
mod working;

pub use turning::{Ended, turn, turns};
pub use working::work;
