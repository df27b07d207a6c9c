/// A tabulated road: its ends, and its points as a run inside the point table.
#[derive(Clone, Copy, PartialEq, Eq, Debug, Default)]
pub struct Road {
    pub tail: u32,
    pub head: u32,
    /// The index of its first point.
    // A place and a count, and no slice: tables are lent as plain numbers, with the points of all roads in one.
    pub first: u32,
    /// How many points it has.
    pub count: u32,
}
