ghost use Rattle.std.specs.Prelude.{◌≡◌, ℕ, ◌-◌, ◌^◌, ◌<◌, ◌≤◌, true, length, slice_index, slice_index_or};
ghost use Rattle.curve.specs.Curve.{IsLastBy, climbing, no_point, reads};

use super::points::Point;
use super::reading::line_at;

/// One or more points, departures rising and arrivals never falling.
#[derive(Clone, Copy, PartialEq, Eq, Debug)]
pub struct Run<'p> {
    pub points: &'p [Point],
    pub ghost some: { 0 < length points.now },
    pub ghost climbs: { climbing points.now ≡ true },
}

/// Whether each point and the next climb: departures rise, arrivals never fall.
pub fn is_climbing(points: &[Point]) -> bool
    ensures whether_climbing { result ≡ climbing points.now }
{
    points.is_sorted_by(|point, next| point.climbs_to(*next))
}

impl<'p> Run<'p> {
    /// The run of these points.
    pub fn new(points: &'p [Point]) -> Run<'p>
        requires some { 0 < length points.now }
        requires climbing { climbing points.now ≡ true }
        ensures its_points { result.points.now ≡ points.now }
    {
        Run { points }
    }

    /// The last point that sets out at `x` or before.
    fn place_of(&self, x: u32) -> usize
        requires begins { (slice_index_or self.now.points.now 0 no_point).departure ≤ x }
        ensures last { IsLastBy self.now.points.now result x }
    {
        // The first point sets out at `x` or before, so that only those after it are searched.
        self.points[1..].partition_point(|p| p.departure <= x)
    }

    /// The last point that sets out at `x` or before, where `i` was the last a minute earlier.
    #[tactic(auto, using(crate::specs::Runs::rises_at))]
    fn advance(&self, i: usize, x: u32) -> usize
        requires before { IsLastBy self.now.points.now i (x - 1) }
        ensures last { IsLastBy self.now.points.now result x }
    {
        match self.points.get(i + 1) {
            Some(next) if next.departure <= x => i + 1,
            _ => i,
        }
    }

    /// What the run reads at minute `x`, of which point `i` is the last to set out at `x` or before.
    #[tactic(auto, using(crate::specs::Runs::climbs_at, crate::specs::Runs::reads_between, crate::specs::Runs::reads_past))]
    fn read_from(&self, i: usize, x: u32) -> u32
        requires last { IsLastBy self.now.points.now i x }
        requires fits { reads self.now.points.now x < 2 ^ 32 }
        ensures reads_the_run { result ≡ reads self.now.points.now x }
    {
        let from = self.points[i];
        match self.points.get(i + 1) {
            Some(to) => line_at(from, *to, x),
            None => x + from.span(),
        }
    }

    /// What the run reads at minute `x`.
    pub fn read(&self, x: u32) -> u32
        requires begins { (slice_index_or self.now.points.now 0 no_point).departure ≤ x }
        requires fits { reads self.now.points.now x < 2 ^ 32 }
        ensures reads_the_run { result ≡ reads self.now.points.now x }
    {
        self.read_from(self.place_of(x), x)
    }

    /// Writes what the run reads at each minute from 0 on, walking its points once.
    #[tactic(auto, using(crate::specs::Runs::rises_at))]
    pub fn sample(&self, out: &mut [u32])
        requires begins { (slice_index_or self.now.points.now 0 no_point).departure ≡ 0 }
        requires short { length out.old < 2 ^ 32 }
        requires fits { (t : ℕ) → t < length out.old → reads self.now.points.now t < 2 ^ 32 }
        ensures each_minute_read { (t : ℕ) → t < length out.new → slice_index out.new t ≡ reads self.now.points.now t }
    {
        let mut i = 0;
        for (t, place) in out.iter_mut().enumerate() {
            i = self.advance(i, t as u32);
            *place = self.read_from(i, t as u32);
        }
    }
}
