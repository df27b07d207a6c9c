//! The rows of a sheet that is printed.

ghost use Rattle.std.specs.Prelude.{◌≡◌, ◌<◌, map, length};
ghost use Rattle.rows.specs.Rows.{point_of, points};
ghost use Rattle.layout.specs.Sheets.{SheetFits, row_of};

use rows::pairs_of;

/// `nodes` rows of `width` numbers, one after the other.
#[derive(Clone, Copy, PartialEq, Eq, Debug)]
pub struct Cells<'c> {
    pub numbers: &'c [u32],
    pub width: usize,
    pub nodes: u32,
    pub ghost fits: { SheetFits numbers.now width nodes },
}

impl Cells<'_> {
    /// The points of row `v`.
    pub(crate) fn pairs(&self, v: u32) -> &[[u32; 2]]
        requires { v < self.now.nodes }
        ensures takes_row { map point_of result.now ≡ points (row_of self.now.numbers.now self.now.width v) }
        ensures few { length result.now < 1442 }
    {
        // Taken by number: `chunks_exact` wants a width that is not 0, which no sheet without nodes need have.
        let start = v as usize * self.width;
        pairs_of(&self.numbers[start..start + self.width])
    }
}
