//! When a road may be entered.

ghost use Rattle.std.specs.Prelude.{◌≡◌, ◌+◌, ◌<◌, ◌≤◌, true, length, nat_le, slice_index_or};
ghost use Rattle.std.specs.List.{find};
ghost use Rattle.timetable.specs.declared.tables.Interval.{Interval};
ghost use Rattle.timetable.specs.Timetables.{ascending, entry, no_interval, opening};

use super::tables::Interval;

/// The intervals of a period of at most 5,000 minutes: each lies in it, after the one before.
#[derive(Clone, Copy, PartialEq, Eq, Debug)]
pub struct Hours<'i> {
    pub period: u32,
    pub intervals: &'i [Interval],
    pub ghost short: { period ≤ 5000 },
    pub ghost some: { 0 < length intervals.now },
    pub ghost ascends: { ascending period 0 intervals.now ≡ true },
}

impl Hours<'_> {
    /// The first interval that does not close before minute `k` of the period.
    fn next_open(&self, k: u32) -> Option<Interval>
        ensures first_or_none { result ≡ find (λ (i : Interval). nat_le k i.closes) self.now.intervals.now }
    {
        self.intervals.iter().find(|i| k <= i.closes).copied()
    }

    /// The first minute from `k` on that lies in an interval of this period, else of the next.
    #[tactic(auto, using(crate::specs::Entries::first_within, crate::specs::Entries::opening_by_find))]
    fn opening_from(&self, k: u32) -> u32
        ensures first_opening { result ≡ opening (self.now.period + (slice_index_or self.now.intervals.now 0 no_interval).opens) self.now.intervals.now k }
    {
        match self.next_open(k) {
            Some(i) => k.max(i.opens),
            None => self.period + self.intervals[0].opens,
        }
    }

    /// When a vehicle that is there at minute `x` enters.
    #[tactic(auto, using(crate::specs::Entries::first_within, crate::specs::Entries::entry_soon))]
    pub fn entry(&self, x: u32) -> u32
        requires early { x ≤ 20461440 }
        ensures enters_first { result ≡ entry self.now.period self.now.intervals.now x }
        ensures soon { result < x + self.now.period }
    {
        let k = x % self.period;
        x - k + self.opening_from(k)
    }
}
