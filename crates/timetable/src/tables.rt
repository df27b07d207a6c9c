/// Minutes of a period at which a road may be entered: from `opens` to `closes`, both included.
#[derive(Clone, Copy, PartialEq, Eq, Debug, Default)]
pub struct Interval {
    pub opens: u32,
    pub closes: u32,
}

/// A timetabled road: its ends, its period and crossing time, and its intervals as a run inside the
/// interval table.
#[derive(Clone, Copy, PartialEq, Eq, Debug, Default)]
pub struct TimedRoad {
    pub tail: u32,
    pub head: u32,
    /// The minutes after which its intervals come again.
    pub period: u32,
    /// The minutes from entry to arrival.
    pub time: u32,
    /// The index of its first interval.
    // A place and a count, and no slice: tables are lent as plain numbers, with the intervals of all roads in one.
    pub first: u32,
    /// How many intervals it has.
    pub count: u32,
}
