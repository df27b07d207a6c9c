//! The slopes that a line may have, kept as a range while a scan goes on.

ghost use Rattle.std.specs.Prelude.{ℕ, ◌<◌, MatchBool};

use curve::Point;

/// A fraction, rise over run; 1 over 0 is steeper than every slope.
#[derive(Clone, Copy, Debug)]
pub struct Slope {
    pub rise: u32,
    pub run: u32,
}

/// The slopes from `lower` on and below `upper`.
#[derive(Clone, Copy, Debug)]
pub struct Funnel {
    pub lower: Slope,
    pub upper: Slope,
    pub ghost positive: { 0 < lower.run },
}

impl Slope {
    ghost use Rattle.corridor.specs.Funnels.{AtMost, Exceeds, Over, Under};

    // No `PartialOrd`: it wants an equality by products beside it, since 1 over 2 is 2 over 4, and a type without
    // 0 over 0, which is neither over nor under any slope; all for this one test.

    /// Whether this slope is `other` or flatter: told by products, which two factors of 32 bits keep within 64.
    pub fn at_most(self, other: Slope) -> bool
        ensures at_most_or_exceeds { MatchBool result (AtMost self other) (Exceeds self other) }
    {
        self.rise as u64 * other.run as u64 <= other.rise as u64 * self.run as u64
    }

    /// The steeper of two slopes.
    pub fn steeper(self, other: Slope) -> Slope
        requires { (0 < self.run) × (0 < other.run) }
        ensures positive { 0 < result.run }
        ensures over_both { (n m : ℕ) → Over result n m → Over self n m × Over other n m }
        ensures over_each { (n m : ℕ) → Over self n m → Over other n m → Over result n m }
    {
        if self.at_most(other) { other } else { self }
    }

    /// The flatter of two slopes, the first of which may be 1 over 0.
    pub fn flatter(self, other: Slope) -> Slope
        requires { 0 < other.run }
        ensures under_both { (n m : ℕ) → 0 < m → Under result n m → Under self n m × Under other n m }
        ensures under_each { (n m : ℕ) → Under self n m → Under other n m → Under result n m }
    {
        if self.at_most(other) { self } else { other }
    }
}

impl Funnel {
    ghost use Rattle.corridor.specs.Funnels.{Admits, Fits};

    /// Every slope.
    pub fn open() -> Funnel
        ensures admits_all { (n m : ℕ) → 0 < m → Admits result n m }
    {
        Funnel {
            lower: Slope { rise: 0, run: 1 },
            upper: Slope { rise: 1, run: 0 },
        }
    }

    /// The slopes that both admit.
    pub fn meet(self, other: Funnel) -> Funnel
        requires { 0 < other.upper.run }
        ensures admits_both { (n m : ℕ) → 0 < m → Admits result n m → Admits self n m × Admits other n m }
        ensures admits_each { (n m : ℕ) → 0 < m → Admits self n m → Admits other n m → Admits result n m }
    {
        Funnel {
            lower: self.lower.steeper(other.lower),
            upper: self.upper.flatter(other.upper),
        }
    }

    /// Whether the slope is one of these.
    pub fn admits(self, slope: Slope) -> bool
        ensures admits_or_not { MatchBool result (Admits self slope.rise slope.run) (Admits self slope.rise slope.run → ⊥) }
    {
        self.lower.at_most(slope) && !self.upper.at_most(slope)
    }

    /// Whether the line from one point to a later one does not fall and has one of these slopes.
    pub fn fits(self, from: Point, to: Point) -> bool
        requires { from.departure < to.departure }
        ensures fits_or_not { MatchBool result (Fits self from to) (Fits self from to → ⊥) }
    {
        if to.arrival < from.arrival {
            return false;
        }
        self.admits(Slope {
            rise: to.arrival - from.arrival,
            run: to.departure - from.departure,
        })
    }

    /// Whether no slope is left.
    pub fn is_empty(self) -> bool
        ensures none_or_lowest { MatchBool result ((n m : ℕ) → Admits self n m → ⊥) (Admits self self.lower.rise self.lower.run) }
    {
        self.upper.at_most(self.lower)
    }
}
