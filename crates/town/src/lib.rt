//! A sample town of four nodes and four roads.

#![tactic(auto)]

mod tables;

pub use tables::{ALLOWANCE, NODES, ORIGIN, POINTS, ROADS, WINDOW, town, town_stands};

#[cfg(test)]
mod tests;
