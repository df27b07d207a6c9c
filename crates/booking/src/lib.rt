//! The book of a text of graph files: what the book program prints.

#![tactic(auto)]

ghost use Rattle.std.specs.Prelude.{◌≡◌, ◌<◌, ◌≤◌, length, IfOk, Err, string_bytes};
ghost use Rattle.graph_file.specs.Loads.{answer_of, limits_of, load_of};
ghost use Rattle.refusal.specs.declared.Refusal.{Refusal as RefusalT};
ghost use Rattle.refusal.specs.Refusals.{refusal};
ghost use Rattle.booking.specs.Pages.{BookOrRefusalLine, NoBook, refused_line, too_long, unsettled};

mod failure;
mod page;

use book::print;
use curve::Point;
pub use failure::Failure;
use graph_file::load;
use network::{Network, Road, Tabulated};
pub use page::{Page, RefusalLine};
use refusal::{Line, Refusal};
use runs::Outcome;
use sheet::{origin, rule};
use std::alloc::{AllocError, Global};
use turns::work;
use worklist::Fifo;

/// The longest input that is admitted.
pub const MOST_BYTES: usize = 65_536;

/// What is admitted of nodes, roads and points.
const NODES: u32 = 64;

const ROADS: usize = 256;

const POINTS: usize = 4096;

/// The minutes from one graph file to the next, and the figures of the sheet.
const SPACING: u32 = 60;

const WINDOW: u32 = 1440;

const PLACES: u32 = 24;

const ALLOWANCE: u32 = 100;

/// The turns that the sheet is given to settle.
const TURNS: u32 = 1_000_000;

/// How many numbers the rows of all admitted nodes have.
const NUMBERS: usize = 3136;

/// No book is longer: a header of 24 bytes, and 34 bytes at most for each point.
const LONGEST_BOOK: usize = 65_536;

/// Refuses a sheet that work has not settled.
fn check_settled(outcome: Outcome) -> Result<(), Refusal>
    ensures refused_unless_settled { refusal result ≡ unsettled outcome }
{
    match outcome {
        Outcome::Settled => Ok(()),
        Outcome::Full(road) => Err(Refusal::Unsettled(Some(road))),
        Outcome::More => Err(Refusal::Unsettled(None)),
    }
}

/// Settles the sheet of a network whose origin is its first node, and prints it.
fn print_settled<N: Network>(heap: Global, net: &N) -> Result<Vec<u8>, Failure> {
    let mut rows = vec![in heap; 0u32; NUMBERS]?;
    let mut marks = vec![in heap; 0u8; ROADS]?;
    let mut list = Fifo::new();
    let mut heading = rule(
        net, &mut rows, &mut marks, &mut list, WINDOW, PLACES, ALLOWANCE,
    )?;
    origin(net, &mut heading, &mut rows, &marks, &mut list, 0)?;
    let (_turns, outcome) = work(net, &heading, &mut rows, &marks, &mut list, TURNS)?;
    check_settled(outcome)?;
    let mut text = vec![in heap; 0u8; LONGEST_BOOK]?;
    let length = print(net, &heading, &rows, &marks, &list, &mut text)?;
    text.truncate(length);
    Ok(text)
}

/// The book of a text of graph files, or why there is none.
pub fn make_book(heap: Global, input: &[u8]) -> Result<Vec<u8>, Failure>
    ensures load_refusal_passed_on { length input.now ≤ 65536 → (e : RefusalT) → answer_of (load_of (limits_of 64 256 4096) 60 input.now) ≡ Err e → NoBook result e }
    ensures too_long_refused { 65536 < length input.now → result ≡ too_long }
{
    if input.len() > MOST_BYTES {
        return Err(Failure::Refused(Refusal::Quota(Line { file: 0, line: 0 })));
    }
    let mut roads = vec![in heap; Road::default(); ROADS]?;
    let mut points = vec![in heap; Point::default(); POINTS]?;
    let loaded = load(input, SPACING, NODES, &mut roads, &mut points)?;
    let table = &roads[..loaded.roads as usize];
    let net = Tabulated::try_new(loaded.nodes, table, &points)?;
    print_settled(heap, &net)
}

/// The line that says why an input is refused.
pub fn refusal_line(heap: Global, refusal: Refusal) -> Result<String, AllocError>
    ensures line_as_defined { IfOk result (λ s. string_bytes s ≡ refused_line refusal) }
{
    RefusalLine(refusal).to_string(heap)
}

/// The page for an input: its book, or the line that says why it is refused.
pub fn page_for(heap: Global, input: &[u8]) -> Result<Page, AllocError>
    ensures else_a_refusal_line { IfOk result BookOrRefusalLine }
{
    match make_book(heap, input) {
        Ok(text) => Ok(Page::Book(text)),
        Err(Failure::Refused(refusal)) => Ok(Page::Refused(refusal_line(heap, refusal)?)),
        Err(Failure::NoMemory) => Err(AllocError),
    }
}
