//! The corridor rule: the label that stays between two curves and makes each step as long as it can.

#![tactic(auto)]

ghost use Rattle.corridor.specs.Laws.{Laws};

mod bounds;
mod funnel;
mod label;
mod next;
#[cfg(test)]
mod tests;

pub use bounds::Bounds;
pub use label::Full;

/// The laws of the corridor rule: a label exists, is the only one, climbs from 0 to the last minute and
/// reads from the lower curve to the upper one.
pub fn corridor_laws_stand()
    ensures laws { Laws }
{}
