//! The text of a book: labels laid out line by line.

#![tactic(auto)]

ghost use Rattle.std.specs.Prelude.{◌≡◌, ◌^◌, ◌<◌, ◌≤◌, length};
ghost use Rattle.layout.specs.Layout.{layout};
ghost use Rattle.layout.specs.Sheets.{rows};
ghost use Rattle.numeral.specs.Texts.{written};

mod cells;
mod measure;
mod writer;

pub use cells::Cells;
use measure::rows_length;
pub use writer::HEADER;
use writer::{HEADER_LENGTH, Writer};

impl Cells<'_> {
    /// How long the text of their book is.
    pub fn text_length(&self) -> usize
        ensures measures_text { result ≡ length (layout (rows self.now.numbers.now self.now.width self.now.nodes)) }
        ensures short { result < 2 ^ 26 }
    {
        HEADER_LENGTH + rows_length(self)
    }

    /// Writes the text of their book at the front of the buffer, and says how long it is; what stands
    /// after it is kept.
    pub fn write_text(&self, buffer: &mut [u8]) -> usize
        requires room { length (layout (rows self.now.numbers.now self.now.width self.now.nodes)) ≤ length buffer.old }
        ensures ends_after_text { result ≡ length (layout (rows self.now.numbers.now self.now.width self.now.nodes)) }
        ensures writes_text_alone { buffer.new ≡ written 0 (layout (rows self.now.numbers.now self.now.width self.now.nodes)) buffer.old }
    {
        let mut writer = Writer { buffer, at: 0 };
        writer.put_header();
        writer.put_rows(self);
        writer.at
    }
}
