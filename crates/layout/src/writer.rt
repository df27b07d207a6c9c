//! A buffer that is written from its front.

ghost use Rattle.std.specs.Prelude.{map};
ghost use Rattle.layout.specs.Layout.{body_text, field, header, line_text, row_text};
ghost use Rattle.layout.specs.Sheets.{rows};
ghost use Rattle.layout.specs.Writing.{HasRoom, Wrote};
ghost use Rattle.rows.specs.Rows.{point_of};

use super::cells::Cells;
use curve::Point;
use numeral::put_number;
use rows::point_of;

/// The first line of every book.
pub const HEADER: &[u8] = b"node,departure,arrival\r\n";

/// The length of the first line.
pub const HEADER_LENGTH: usize = HEADER.len();

/// A buffer, and where the next byte goes.
// No `Vec`: the buffer is lent, nothing is allocated here, and what stands after the text is kept.
#[derive(Drop)]
pub struct Writer<'b> {
    pub buffer: &'b mut [u8],
    pub at: usize,
}

impl Writer<'_> {
    /// Writes a number and the mark after it.
    fn put_field(&mut self, n: u32, mark: u8)
        requires { HasRoom self.old (field n mark) }
        ensures wrote_field { Wrote self.old self.new (field n mark) }
    {
        let buffer = &mut *self.buffer;
        let end = put_number(buffer, self.at, n);
        buffer[end] = mark;
        self.at = end + 1;
    }

    /// Writes a line.
    fn put_line(&mut self, node: u32, point: Point)
        requires { HasRoom self.old (line_text node point) }
        ensures wrote_line { Wrote self.old self.new (line_text node point) }
    {
        self.put_field(node, b',');
        self.put_field(point.departure, b',');
        self.put_field(point.arrival, b'\r');
        self.buffer[self.at] = b'\n';
        self.at += 1;
    }

    /// Writes the lines of a row.
    fn put_row(&mut self, node: u32, pairs: &[[u32; 2]])
        requires { HasRoom self.old (row_text node (map point_of pairs.now)) }
        ensures wrote_row { Wrote self.old self.new (row_text node (map point_of pairs.now)) }
    {
        for pair in pairs {
            self.put_line(node, point_of(pair));
        }
    }

    /// Writes the lines of all rows.
    pub fn put_rows(&mut self, cells: &Cells)
        requires { HasRoom self.old (body_text 1 (rows cells.now.numbers.now cells.now.width cells.now.nodes)) }
        ensures wrote_rows { Wrote self.old self.new (body_text 1 (rows cells.now.numbers.now cells.now.width cells.now.nodes)) }
    {
        for v in 0..cells.nodes {
            self.put_row(v + 1, cells.pairs(v));
        }
    }

    /// Writes the first line.
    pub fn put_header(&mut self)
        requires { HasRoom self.old header }
        ensures wrote_header { Wrote self.old self.new header }
    {
        let end = self.at + HEADER_LENGTH;
        self.buffer[self.at..end].copy_from_slice(HEADER);
        self.at = end;
    }
}
