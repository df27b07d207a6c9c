//! The next point of a label, found in one pass over the minutes after the last.

ghost use Rattle.std.specs.Prelude.{◌≡◌, ◌+◌, ◌<◌, length};
ghost use Rattle.corridor.specs.Corridor.{Next, Stands};
ghost use Rattle.corridor.specs.Curves.{curve_of, last};
ghost use Rattle.corridor.specs.Funnels.{Seen};
ghost use Rattle.corridor.specs.Scans.{Scanned, Scanning};

use super::bounds::Bounds;
use super::funnel::{Funnel, Slope};
use curve::Point;

/// A scan over the minutes after the point `from`.
#[derive(Clone, Copy, Debug)]
struct Scan<'c> {
    bounds: Bounds<'c>,
    from: Point,
    /// The slopes that the minutes seen so far admit.
    funnel: Funnel,
    /// The next point as far as these minutes.
    best: Point,
}

impl Scan<'_> {
    /// The slopes that minute `s` still admits.
    fn pass(&self, s: u32) -> Funnel
        requires place { Scanning self.now s }
        requires seen { Seen (curve_of self.now.bounds.lo.now) (curve_of self.now.bounds.up.now) self.now.from s self.now.funnel }
        ensures seen_one_more { Seen (curve_of self.now.bounds.lo.now) (curve_of self.now.bounds.up.now) self.now.from (s + 1) result }
    {
        let run = s - self.from.departure;
        let lower = Slope {
            rise: self.bounds.lo[s as usize].saturating_sub(self.from.arrival),
            run,
        };
        let upper = Slope {
            rise: self.bounds.up[s as usize] + 1 - self.from.arrival,
            run,
        };
        self.funnel.meet(Funnel { lower, upper })
    }

    /// The next point as far as minute `s`: one at `s` if a height serves there, else the best so far.
    fn reach(&self, s: u32) -> Point
        requires place { Scanning self.now s }
        requires scanned { Scanned self.now s }
        ensures next_to_here { Next (curve_of self.now.bounds.lo.now) (curve_of self.now.bounds.up.now) (s + 1) self.now.from result }
    {
        let low = Point {
            departure: s,
            arrival: self.bounds.lo[s as usize],
        };
        let high = Point {
            departure: s,
            arrival: self.bounds.up[s as usize],
        };
        if self.funnel.fits(self.from, low) {
            low
        } else if self.funnel.fits(self.from, high) {
            high
        } else {
            self.best
        }
    }

    /// Sees minute `s`.
    fn see(&mut self, s: u32)
        requires place { Scanning self.old s }
        requires scanned { Scanned self.old s }
        ensures bounds_kept { self.new.bounds ≡ self.old.bounds }
        ensures from_kept { self.new.from ≡ self.old.from }
        ensures scanned_one_more { Scanned self.new (s + 1) }
    {
        self.best = self.reach(s);
        self.funnel = self.pass(s);
    }
}

/// The next point of the label after `from`.
pub fn next_point(bounds: &Bounds, from: Point) -> Point
    requires place { Stands (curve_of bounds.now.lo.now) (curve_of bounds.now.up.now) (last bounds.now.lo.now) from }
    requires more { from.departure + 1 < length bounds.now.lo.now }
    ensures next_of_all { Next (curve_of bounds.now.lo.now) (curve_of bounds.now.up.now) (length bounds.now.lo.now) from result }
{
    let mut scan = Scan {
        bounds: *bounds,
        from,
        funnel: Funnel::open(),
        best: from,
    };
    for s in from.departure + 1..bounds.lo.len() as u32 {
        scan.see(s);
        if scan.funnel.is_empty() {
            return scan.best;
        }
    }
    scan.best
}
