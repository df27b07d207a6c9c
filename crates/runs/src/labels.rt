ghost use Rattle.std.specs.Prelude.{◌≡◌, ◌+◌, ◌*◌, ◌<◌, ◌≤◌, true, length};
ghost use Rattle.rows.specs.Rows.{width};
ghost use Rattle.runs.specs.Formed.{Laid};
ghost use Rattle.runs.specs.Ready.{Sampled};
ghost use Rattle.runs.specs.Sheet.{at, labelled, row};

use crate::Heading;
use curve::{Point, Run};
use rows::read_row;

/// The longest window has this many departures.
pub const DEPARTURES: usize = 1441;

/// The labels of a sheet, to be read: the heading, and a row of numbers for each node.
#[derive(Clone, Copy, PartialEq, Eq, Debug)]
pub struct Labels<'r> {
    pub heading: Heading,
    pub rows: &'r [u32],
    ghost room: { heading.figures.nodes * width heading.figures.places ≤ length rows.now },
}

// A node by its number, and no value for a node's row: what is promised of a row names the rows and the node, and would
// name them beside such a value too.

impl<'r> Labels<'r> {
    /// The labels in rows that are long enough.
    pub fn new(heading: Heading, rows: &'r [u32]) -> Labels<'r>
        requires room { heading.figures.nodes * width heading.figures.places ≤ length rows.now }
        ensures same_heading { result.heading ≡ heading }
        ensures same_rows { result.rows.now ≡ rows.now }
    {
        Labels { heading, rows }
    }

    /// The row of a node.
    pub fn row(&self, node: u32) -> &'r [u32]
        requires node { node < self.now.heading.figures.nodes }
        ensures row_is { result.now ≡ row self.now.heading.figures.places self.now.rows.now node }
        ensures whole { length result.now ≡ width self.now.heading.figures.places }
    {
        &self.rows[self.heading.row_range(node)]
    }

    /// Whether a node has a label.
    pub fn has(&self, node: u32) -> bool
        requires node { node < self.now.heading.figures.nodes }
        ensures whether_labelled { result ≡ labelled self.now.heading.figures self.now.rows.now node }
    {
        self.row(node)[0] != 0
    }

    /// What a node's label reads at departure 0.
    pub fn first_arrival(&self, node: u32) -> u32
        requires node { node < self.now.heading.figures.nodes }
        requires laid { Laid self.now.heading.figures self.now.rows.now }
        requires labelled { labelled self.now.heading.figures self.now.rows.now node ≡ true }
        ensures first_arrival { result ≡ at self.now.heading.figures self.now.rows.now node 0 }
    {
        self.row(node)[2]
    }

    /// Writes what a node's label reads at each departure.
    pub fn sample(&self, node: u32, out: &mut [u32])
        requires node { node < self.now.heading.figures.nodes }
        requires departures { length out.old ≡ self.now.heading.figures.window + 1 }
        requires laid { Laid self.now.heading.figures self.now.rows.now }
        requires labelled { labelled self.now.heading.figures self.now.rows.now node ≡ true }
        ensures each_departure_read { Sampled self.now.heading.figures self.now.rows.now node out.new }
    {
        let mut points = [Point::default(); DEPARTURES];
        let count = read_row(self.row(node), &mut points);
        Run::new(&points[..count]).sample(out);
    }
}
