//! Relaxing a road: the label of its head, by the corridor that the road leaves to it.

#![tactic(auto)]

mod curves;
mod step;

pub use step::relax;
