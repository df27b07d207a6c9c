//! Road networks.

#![tactic(auto)]

mod judging;
mod kinds;
mod lent;
mod meaning;
mod tables;
mod tabulated;
mod theorems;

pub use judging::LONGEST;
pub use kinds::{TableRoad, Tables};
pub use meaning::{LAST_MINUTE, MOST_NODES, MOST_ROADS, Network};
pub use tables::Road;
pub use tabulated::Tabulated;
pub use theorems::{laws_stand, routes_stand, tables_stand};

#[cfg(test)]
mod tests;
