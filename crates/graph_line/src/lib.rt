//! What one line of a graph file says.

#![tactic(auto)]

ghost use Rattle.graph_line.specs.Statements.{arc_by, capped, problem_by, said, words};
ghost use Rattle.numeral.specs.Decimals.{read_up_to};
ghost use Rattle.std.specs.Prelude.{◌≡◌, Some, None, MatchOption};

use numeral::{cut_at, read_number};

/// More than any number of a graph file may be: a larger one is read as this.
const TOO_MUCH: u32 = 10_001;

/// An arc as a line gives it: its ends are nodes counted from 1, its weight is a crossing time.
#[derive(Clone, Copy, PartialEq, Eq, Debug)]
pub struct Arc {
    pub tail: u32,
    pub head: u32,
    pub weight: u32,
}

/// What a line says.
#[derive(Clone, Copy, PartialEq, Eq, Debug)]
pub enum Statement {
    Comment,
    /// How many nodes and how many roads a file has.
    // Two numbers and no struct: each `match` names them, and then they go different ways.
    Problem(u32, u32),
    Crossing(Arc),
    /// A broken line that begins as a problem line does, so that it begins a file.
    BrokenProblem,
    /// Any other broken line.
    Broken,
}

/// The words between the first three spaces, and what stands after them.
fn words(line: &[u8]) -> Option<(&[u8], &[u8], &[u8], &[u8])>
    ensures tells_words { MatchOption result (words line.now ≡ None) (λ w. words line.now ≡ Some (w.0.now, w.1.now, w.2.now, w.3.now)) }
{
    let (first, rest) = cut_at(line, b' ')?;
    let (second, rest) = cut_at(rest, b' ')?;
    let (third, rest) = cut_at(rest, b' ')?;
    Some((first, second, third, rest))
}

/// The nodes and the roads that a problem line gives.
fn read_problem(line: &[u8]) -> Option<(u32, u32)>
    ensures reads_problem { result ≡ problem_by (read_up_to 10001) line.now }
{
    match words(line)? {
        (b"p", b"sp", nodes, roads) => Some((
            read_number(nodes, TOO_MUCH)?,
            read_number(roads, TOO_MUCH)?,
        )),
        _ => None,
    }
}

/// The arc that a line gives.
fn read_arc(line: &[u8]) -> Option<Arc>
    ensures reads_arc { result ≡ arc_by (read_up_to 10001) line.now }
{
    match words(line)? {
        (b"a", tail, head, weight) => Some(Arc {
            tail: read_number(tail, TOO_MUCH)?,
            head: read_number(head, TOO_MUCH)?,
            weight: read_number(weight, TOO_MUCH)?,
        }),
        _ => None,
    }
}

/// What a line says, told by its first character; a number too large for any limit is read as
/// `TOO_MUCH`.
pub fn read_line(line: &[u8]) -> Statement
    ensures says_line { result ≡ capped (said line.now) }
{
    let [first, ..] = line else {
        return Statement::Broken;
    };
    match char::from(*first) {
        'c' => Statement::Comment,
        'p' => match read_problem(line) {
            Some((nodes, roads)) => Statement::Problem(nodes, roads),
            None => Statement::BrokenProblem,
        },
        'a' => match read_arc(line) {
            Some(arc) => Statement::Crossing(arc),
            None => Statement::Broken,
        },
        _ => Statement::Broken,
    }
}
