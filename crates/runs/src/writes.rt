ghost use Rattle.std.specs.Prelude.{◌*◌, ◌<◌, ◌≤◌, length};
ghost use Rattle.rows.specs.Rows.{width};
ghost use Rattle.runs.specs.Ready.{Rewritten};

use crate::Heading;
use curve::Point;
use rows::write_row;

// Rows are lent to one call to be written, and come without a type: one of rows and their heading would have to promise with
// each call that it keeps to the memory it was lent, which says more than that the rows are long enough.

impl Heading {
    /// Gives a node a label: writes it into the node's own row.
    pub fn write_label(&self, rows: &mut [u32], node: u32, label: &[Point])
        requires room { self.now.figures.nodes * width self.now.figures.places ≤ length rows.old }
        requires node { node < self.now.figures.nodes }
        requires fits { length label.now ≤ self.now.figures.places }
        ensures own_row_alone { Rewritten self.now.figures rows.old node label.now rows.new }
    {
        write_row(label, &mut rows[self.row_range(node)]);
    }
}
