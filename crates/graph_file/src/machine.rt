//! What the lines of graph files may be, one after another.

ghost use Rattle.std.specs.Prelude.{◌≡◌, ◌<◌, Some, Ok, Err, MatchResult};
ghost use Rattle.graph_file.specs.Files.{refused_at};
ghost use Rattle.graph_file.specs.Steps.{arc_fits, following, opening, same_ends};

use graph_line::Arc;
use network::{LONGEST, Road};
use refusal::{Line, Refusal};

/// The most files that a text may have.
const MOST_FILES: u32 = 48;

/// What was loaded: the network's size, and how many files gave it.
#[derive(Clone, Copy, PartialEq, Eq, Debug)]
pub struct Loaded {
    pub nodes: u32,
    pub roads: u32,
    pub files: u32,
}

/// What the files of a text may ask for.
#[derive(Clone, Copy, PartialEq, Eq, Debug)]
pub struct Limits {
    pub nodes: u32,
    pub roads: usize,
    pub points: usize,
}

/// What is wrong with a line.
#[derive(Clone, Copy, PartialEq, Eq, Debug)]
pub enum Fault {
    BadText,
    OverQuota,
}

impl Fault {
    /// What is returned for a line that is wrong.
    pub fn at(self, line: Line) -> Refusal
        ensures names_line { result ≡ refused_at self line.file line.line }
    {
        match self {
            Fault::BadText => Refusal::Text(line),
            Fault::OverQuota => Refusal::Quota(line),
        }
    }
}

/// How far the files have come, from the first problem line on: the files so far, and how many
/// arcs of the last are there.
#[derive(Clone, Copy, PartialEq, Eq, Debug)]
pub struct Progress {
    pub loaded: Loaded,
    pub done: u32,
}

impl Progress {
    /// Begins the first file.
    pub fn begin(limits: Limits, nodes: u32, roads: u32) -> Result<Progress, Fault>
        ensures opens { MatchResult result (λ p. opening limits nodes roads ≡ Ok (Some p)) (λ e. opening limits nodes roads ≡ Err e) }
    {
        if nodes == 0 {
            return Err(Fault::BadText);
        }
        let places = roads as usize;
        if nodes > limits.nodes || places > limits.roads || places > limits.points {
            return Err(Fault::OverQuota);
        }
        let loaded = Loaded {
            nodes,
            roads,
            files: 1,
        };
        Ok(Progress { loaded, done: 0 })
    }

    /// Begins a later file, which repeats the figures of the first.
    pub fn begin_next(self, limits: Limits, nodes: u32, roads: u32) -> Result<Progress, Fault>
        ensures follows { MatchResult result (λ p. following limits self nodes roads ≡ Ok (Some p)) (λ e. following limits self nodes roads ≡ Err e) }
    {
        let loaded = self.loaded;
        if self.done != loaded.roads || nodes != loaded.nodes || roads != loaded.roads {
            return Err(Fault::BadText);
        }
        if loaded.files >= MOST_FILES {
            return Err(Fault::OverQuota);
        }
        let files = loaded.files + 1;
        if roads as usize * files as usize > limits.points {
            return Err(Fault::OverQuota);
        }
        let loaded = Loaded { files, ..loaded };
        Ok(Progress { loaded, done: 0 })
    }
}

/// Whether an arc's ends are nodes, and its weight is allowed.
pub fn fits(arc: Arc, nodes: u32) -> bool
    ensures ends_and_weight { result ≡ arc_fits nodes arc }
{
    let all = 1..=nodes;
    all.contains(&arc.tail) && all.contains(&arc.head) && (1..=LONGEST).contains(&arc.weight)
}

/// Whether an arc has a road's ends.
pub fn repeats(here: Road, arc: Arc) -> bool
    requires tail_counts { 0 < arc.tail }
    requires head_counts { 0 < arc.head }
    ensures ends_repeat { result ≡ same_ends here arc }
{
    (arc.tail - 1, arc.head - 1) == (here.tail, here.head)
}
