//! Runs of points, and what is read between them.

#![tactic(auto)]

mod points;
mod reading;
mod runs;

pub use points::Point;
pub use reading::{laws_stand, line_at};
pub use runs::{Run, is_climbing};
