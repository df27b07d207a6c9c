ghost use Rattle.std.specs.Prelude.{◌≡◌, ◌≤◌, true};
ghost use Rattle.curve.specs.Curve.{between, climbs};
ghost use Rattle.curve.specs.Laws.{LineLaws, RunLaws};

use super::points::Point;

/// What the straight line from one point to another reads at minute `x`, the part minute dropped.
#[tactic(auto, using(crate::specs::Lines::between_to, crate::specs::Runs::climbs_tells), unfolding(crate::specs::Curve::between))]
pub fn line_at(from: Point, to: Point, x: u32) -> u32
    requires climbs { climbs from to ≡ true }
    requires after { from.departure ≤ x }
    requires before { x ≤ to.departure }
    ensures reads_the_line { result ≡ between from to x }
{
    let rise = (to.arrival - from.arrival) as u64 * (x - from.departure) as u64;
    from.arrival + (rise / (to.departure - from.departure) as u64) as u32
}

/// The laws of the line between two points, and of runs of points, hold.
#[tactic(auto, using(crate::proofs::Laws::line_laws, crate::proofs::Laws::run_laws))]
pub fn laws_stand()
    ensures line_laws { LineLaws }
    ensures run_laws { RunLaws }
{}
