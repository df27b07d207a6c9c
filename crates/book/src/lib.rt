//! A settled sheet printed as a book.

#![tactic(auto)]

ghost use Rattle.book.specs.Printing.{Answered, book_of};
ghost use Rattle.numeral.specs.Texts.{written};
ghost use Rattle.refusal.specs.Refusals.{refusal};
ghost use Rattle.std.specs.Prelude.{◌≡◌, length, IfOk, OnErr};

use layout::Cells;
use network::Network;
use refusal::Refusal;
use runs::Heading;
use sheet::judge;
use worklist::WorkList;

// The parts of a sheet come one by one, as to `judge`.

/// Prints a settled sheet at the front of the buffer, and answers how long its text is; bytes after the text are kept.
/// Refuses parts that may not be used together, then a sheet without an origin, one that is not settled, and last a
/// buffer that is too short.
pub fn print<N: Network, L: WorkList>(
    net: &N,
    heading: &Heading,
    rows: &[u32],
    marks: &[u8],
    list: &L,
    buffer: &mut [u8],
) -> Result<usize, Refusal>
    ensures refused_as_listed { Answered L.WorkList.work (N.Network.means net.now) heading.now.figures rows.now marks.now (L.WorkList.bound list.now) list.now buffer.old (refusal result) }
    ensures length_of_book { IfOk result (λ n. n ≡ length (book_of heading.now.figures rows.now)) }
    ensures book_printed { IfOk result (λ n. buffer.new ≡ written 0 (book_of heading.now.figures rows.now) buffer.old) }
    ensures refused_keeps_all { OnErr result (buffer.new ≡ buffer.old) }
{
    judge(net, heading, rows, marks, list)?;
    if heading.origin().is_none() {
        return Err(Refusal::NoOrigin);
    }
    if !list.is_empty() {
        return Err(Refusal::Unsettled(None));
    }
    let cells = Cells {
        numbers: rows,
        width: heading.figures().row_width(),
        nodes: heading.nodes(),
    };
    if cells.text_length() > buffer.len() {
        return Err(Refusal::Short);
    }
    Ok(cells.write_text(buffer))
}
