//! Networks whose roads open by a timetable.

#![tactic(auto)]

mod hours;
mod judging;
mod tables;
mod theorems;
mod timetabled;

pub use tables::{Interval, TimedRoad};
pub use theorems::timetables_stand;
pub use timetabled::Timetabled;

#[cfg(test)]
mod tests;
