//! Whether figures and intervals are right for a timetabled road.

ghost use Rattle.std.specs.List.{list_all, zip};
ghost use Rattle.std.specs.Prelude.{◌≡◌, ◌&&◌, nat_lt};
ghost use Rattle.timetable.specs.Timetables.{ascending, lies_within, timed};

use super::tables::{Interval, TimedRoad};

/// The longest period, and the longest crossing time.
const LONGEST: u32 = 5_000;

/// Whether an interval closes within the period, no earlier than it opens.
fn is_within(i: Interval, period: u32) -> bool
    ensures as_ruled { result ≡ lies_within period i }
{
    i.opens <= i.closes && i.closes < period
}

/// Whether each interval of the second run lies in the period, and opens after the one beside it has closed.
fn are_followed(run: &[Interval], next: &[Interval], period: u32) -> bool
    ensures as_ruled { result ≡ list_all (λ p. nat_lt p.0.closes p.1.opens && lies_within period p.1) (zip run.now next.now) }
{
    run.iter().zip(next).all(|(i, next)| i.closes < next.opens && is_within(*next, period))
}

/// Whether intervals lie in the period, each after the one before; told at the first that breaks the rule.
pub fn is_ascending(run: &[Interval], period: u32) -> bool
    ensures as_ruled { result ≡ ascending period 0 run.now }
{
    match run {
        [] => true,
        [first, rest @ ..] => is_within(*first, period) && are_followed(run, rest, period),
    }
}

/// Whether a road's period and crossing time are in range.
pub fn is_timed(road: TimedRoad) -> bool
    ensures as_ruled { result ≡ timed road }
{
    (1..=LONGEST).contains(&road.period) && (1..=LONGEST).contains(&road.time)
}
