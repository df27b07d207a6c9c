ghost use Rattle.std.specs.Prelude.{◌≡◌, ◌+◌, ◌*◌, ◌<◌};
ghost use Rattle.rows.specs.Rows.{width};

use crate::{Figures, Heading};
use std::ops::Range;

impl Figures {
    /// How many numbers a row has.
    pub fn row_width(&self) -> usize
        ensures width_is { result ≡ width self.now.places }
    {
        1 + 2 * self.places as usize
    }
}

impl Heading {
    /// Where the row of a node stands.
    pub fn row_range(&self, node: u32) -> Range<usize>
        requires node { node < self.now.figures.nodes }
        ensures start_is { result.start ≡ node * width self.now.figures.places }
        ensures end_is { result.end ≡ node * width self.now.figures.places + width self.now.figures.places }
    {
        let start = node as usize * self.figures().row_width();
        start..start + self.figures().row_width()
    }

    /// How many numbers all rows have.
    pub fn size_of_rows(&self) -> usize
        ensures rows_measured { result ≡ self.now.figures.nodes * width self.now.figures.places }
    {
        self.nodes() as usize * self.figures().row_width()
    }
}
