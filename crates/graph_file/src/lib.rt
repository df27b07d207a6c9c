//! Graph files, read into the tables of a network.
//!
//! A text of 1 to 48 files in the layout that the ninth DIMACS challenge has for road graphs:
//! file i gives each road its crossing time at minute i × spacing.

#![tactic(auto)]

mod machine;
mod reader;
mod tables;

ghost use Rattle.std.specs.Prelude.{◌≡◌, length, IfOk, Err, MatchResult, OnErr};
ghost use Rattle.graph_file.specs.Files.{files_in};
ghost use Rattle.graph_file.specs.Gathering.{Blank, Fit, Gathered};
ghost use Rattle.graph_file.specs.Loads.{Holds, answer_of, limits_of, load_of};
ghost use Rattle.graph_file.specs.Rules.{Laid, NetworkTables};

use curve::Point;
use machine::Limits;
pub use machine::Loaded;
use network::{MOST_NODES, MOST_ROADS, Road};
use reader::Reader;
use refusal::Refusal;
use tables::Tables;

/// The most minutes between two files.
const MOST_SPACING: u32 = 2000;

/// Empties the tables.
fn clear(roads: &mut [Road], points: &mut [Point])
    ensures empties { Blank roads.new points.new }
{
    roads.fill(Road::default());
    points.fill(Point::default());
}

/// Reads all lines into empty tables.
fn read_files(
    text: &[u8],
    limits: Limits,
    roads: &mut [Road],
    points: &mut [Point],
) -> Result<Loaded, Refusal>
    requires fit { Fit limits (length roads.old) (length points.old) }
    requires blank { Blank roads.old points.old }
    ensures reads_files { MatchResult result (λ got. Gathered limits text.now got roads.new points.new) (λ e. files_in limits text.now ≡ Err e) }
{
    let mut reader = Reader {
        limits,
        progress: None,
        roads,
        points,
    };
    reader.read(text)
}

// The tables come as two slices, as they are lent to `load`: its `Reader` ends before its `Tables` begins.

/// Loads into empty tables; after a refusal anything may stand in them.
fn attempt(
    text: &[u8],
    spacing: u32,
    limits: Limits,
    roads: &mut [Road],
    points: &mut [Point],
) -> Result<Loaded, Refusal>
    requires fit { Fit limits (length roads.old) (length points.old) }
    requires blank { Blank roads.old points.old }
    ensures attempts { MatchResult result (λ got. Laid limits spacing text.now got roads.new points.new) (λ e. load_of limits spacing text.now ≡ Err e) }
{
    if spacing == 0 || spacing > MOST_SPACING {
        return Err(Refusal::Figures);
    }
    let loaded = read_files(text, limits, roads, points)?;
    let mut tables = Tables {
        loaded,
        spacing,
        roads,
        points,
    };
    tables.lay_out();
    match tables.lowest_overtaken() {
        Some(road) => Err(Refusal::Table(Some(road))),
        None => Ok(loaded),
    }
}

/// Loads graph files into the lent tables, with at most `quota` nodes: file i gives the crossing
/// times at minute i × `spacing`. A refusal leaves nothing in the tables.
pub fn load(
    text: &[u8],
    spacing: u32,
    quota: u32,
    roads: &mut [Road],
    points: &mut [Point],
) -> Result<Loaded, Refusal>
    ensures answers_as_defined { result ≡ answer_of (load_of (limits_of quota (length roads.old) (length points.old)) spacing text.now) }
    ensures tables_as_defined { Holds spacing (load_of (limits_of quota (length roads.old) (length points.old)) spacing text.now) roads.new points.new }
    ensures refused_leaves_nothing { OnErr result (Blank roads.new points.new) }
    ensures loaded_keeps_rule { IfOk result (λ got. NetworkTables got.nodes got.roads roads.new points.new) }
    ensures lengths_kept { (length roads.new ≡ length roads.old) × (length points.new ≡ length points.old) }
{
    clear(roads, points);
    let limits = Limits {
        nodes: quota.min(MOST_NODES),
        roads: roads.len().min(MOST_ROADS as usize),
        points: points.len(),
    };
    let result = attempt(text, spacing, limits, roads, points);
    if result.is_err() {
        clear(roads, points);
    }
    result
}
