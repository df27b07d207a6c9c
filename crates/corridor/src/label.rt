//! The label between two curves.

ghost use Rattle.std.specs.Prelude.{◌<◌, List, length, MatchResult};
ghost use Rattle.corridor.specs.Curves.{Label, Written};

use super::bounds::Bounds;
use super::next::next_point;
use curve::Point;

/// The label has more points than there are places.
#[derive(Clone, Copy, PartialEq, Eq, Debug)]
pub struct Full;

impl Bounds<'_> {
    /// Writes the label between the curves into the first places of `out`, and says how many points it has.
    pub fn label(&self, out: &mut [Point]) -> Result<usize, Full>
        ensures written_or_each_longer { MatchResult result (λ n. Written self.now.lo.now self.now.up.now out.old out.new n) (λ _. (ps : List Point) → Label self.now.lo.now self.now.up.now ps → length out.old < length ps) }
    {
        let places = out.len();
        let mut point = Point {
            departure: 0,
            arrival: self.lo[0],
        };
        for (index, place) in out.iter_mut().enumerate() {
            *place = point;
            if point.departure as usize + 1 == self.lo.len() {
                return Ok(index + 1);
            }
            // No minute is scanned for a point that has no place.
            if index + 1 == places {
                return Err(Full);
            }
            point = next_point(self, point);
        }
        // There is no place at all.
        Err(Full)
    }
}
