//! What the program prints.

ghost use Rattle.std.specs.Prelude.{◌≡◌, Some};
ghost use Rattle.booking.specs.Pages.{counted, page_bytes, refused_line};

use refusal::Refusal;
use std::fmt;

/// A refusal as the line that says it: its number and places. Files, lines and roads count from 1, and 0 stands
/// where there is none.
#[derive(Clone, Copy, PartialEq, Eq, Debug)]
pub struct RefusalLine(pub Refusal);

/// A road as the line counts it: from 1, and 0 where there is none.
fn counted(road: Option<u32>) -> u64
    ensures counted_from_one { result ≡ counted road }
{
    road.map_or(0, |road| u64::from(road) + 1)
}

impl fmt::Display for RefusalLine {
    ghost output = { λ line. Some (refused_line line.0) };

    fn fmt<W: fmt::Write>(&self, f: &mut fmt::Formatter<W>) -> fmt::Result {
        let number = self.0.number();
        let places = self.0.places();
        let file = places.file;
        let line = places.line;
        let road = counted(places.road);
        write!(f, "refused,{number},{file},{line},{road}\r\n")
    }
}

/// What the program prints for an input.
#[derive(Debug, Drop)]
pub enum Page {
    /// Its book.
    Book(Vec<u8>),
    /// The line that says why there is none.
    Refused(String),
}

impl Page {
    /// The bytes of the page.
    pub fn as_bytes(&self) -> &[u8]
        ensures bytes_of_page { result.now ≡ page_bytes self.now }
    {
        match self {
            Page::Book(text) => text,
            Page::Refused(line) => line.as_bytes(),
        }
    }
}
