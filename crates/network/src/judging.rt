//! Whether points are right for a tabulated road.

ghost use Rattle.network.specs.Tables.{points_right, point_right, run_right};
ghost use Rattle.std.specs.Prelude.{◌≡◌, ◌<◌, length};

use curve::{Point, is_climbing};

/// The most points that a road may have.
pub const MOST_POINTS: u32 = 48;

/// The last minute at which a point may set out.
const LAST_DEPARTURE: u32 = 100_000;

/// The longest crossing.
pub const LONGEST: u32 = 10_000;

/// Whether a point is right alone.
fn is_point_right(p: Point) -> bool
    ensures as_ruled { result ≡ point_right p }
{
    p.departure <= LAST_DEPARTURE && p.departure < p.arrival && p.arrival - p.departure <= LONGEST
}

/// Whether each point is right alone.
fn are_points_right(run: &[Point]) -> bool
    ensures as_ruled { result ≡ points_right run.now }
{
    run.iter().all(|p| is_point_right(*p))
}

/// Whether points are a right run.
pub fn is_run_right(run: &[Point]) -> bool
    requires some { 0 < length run.now }
    ensures as_ruled { result ≡ run_right run.now }
{
    run[0].departure == 0 && is_climbing(run) && are_points_right(run)
}
