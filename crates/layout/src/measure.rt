//! How long the lines of a book are.

ghost use Rattle.std.specs.Prelude.{◌≡◌, ◌*◌, ◌≤◌, map, length};
ghost use Rattle.layout.specs.Layout.{body_text, line_text, row_text};
ghost use Rattle.layout.specs.Sheets.{rows};
ghost use Rattle.rows.specs.Rows.{point_of};

use super::cells::Cells;
use curve::Point;
use numeral::digits;
use rows::point_of;

// Measured apart, and not in one walk that also writes: a buffer that is too short must be seen before a byte of it is
// written.

// Two loops with a total: a `map` and a `sum` were tried, and nothing of the lines' bound is known of their total, to which
// more is added.

/// How long a line is.
fn line_length(node: u32, point: Point) -> usize
    ensures measures_line { result ≡ length (line_text node point) }
    ensures short { result ≤ 34 }
{
    digits(node) + digits(point.departure) + digits(point.arrival) + 4
}

/// How long the lines of a row are.
fn row_length(node: u32, pairs: &[[u32; 2]]) -> usize
    requires { length pairs.now ≤ 1441 }
    ensures measures_row { result ≡ length (row_text node (map point_of pairs.now)) }
    ensures short { result ≤ 48994 }
{
    let mut total = 0;
    for pair in pairs {
        total += line_length(node, point_of(pair));
    }
    total
}

/// How long the lines of all rows are.
pub fn rows_length(cells: &Cells) -> usize
    ensures measures_rows { result ≡ length (body_text 1 (rows cells.now.numbers.now cells.now.width cells.now.nodes)) }
    ensures short { result ≤ 48994 * cells.now.nodes }
{
    let mut total = 0;
    for v in 0..cells.nodes {
        total += row_length(v + 1, cells.pairs(v));
    }
    total
}
