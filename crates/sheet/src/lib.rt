//! Sheets: a heading, a row of numbers for each node and a mark for each road.

#![tactic(auto)]

mod judging;
mod origins;
mod rules;

pub use judging::judge;
pub use origins::{origin, restart};
pub use rules::rule;
pub use runs::Heading;

#[cfg(test)]
mod tests;
