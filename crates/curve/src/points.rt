ghost use Rattle.std.specs.Prelude.{◌≡◌};
ghost use Rattle.curve.specs.Curve.{climbs, span};

/// A point of an arrival curve: who sets out at `departure` is there at `arrival`.
#[derive(Clone, Copy, PartialEq, Eq, Debug, Default)]
pub struct Point {
    pub departure: u32,
    pub arrival: u32,
}

impl Point {
    /// The time that passes at the point; none where it arrives before it sets out.
    pub fn span(self) -> u32
        ensures time_passed { result ≡ span self }
    {
        self.arrival.saturating_sub(self.departure)
    }

    /// Whether the point and the next climb: departures rise, arrivals never fall.
    pub fn climbs_to(self, next: Point) -> bool
        ensures whether_they_climb { result ≡ climbs self next }
    {
        self.departure < next.departure && self.arrival <= next.arrival
    }
}
