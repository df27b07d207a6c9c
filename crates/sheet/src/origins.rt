ghost use Rattle.std.specs.Prelude.{◌≡◌, ℕ, ◌*◌, ◌<◌, ◌≤◌, List, length, OnErr, OnOk};
ghost use Rattle.refusal.specs.Refusals.{refusal};
ghost use Rattle.rows.specs.Rows.{width};
ghost use Rattle.runs.specs.Ready.{Rewritten};
ghost use Rattle.runs.specs.Settling.{Even};
ghost use Rattle.runs.specs.Sheet.{diagonal, state};
ghost use Rattle.runs.specs.declared.Figures.{Figures as FiguresT};
ghost use Rattle.sheet.specs.Judging.{Fit, JudgedThen, unplaced};
ghost use Rattle.sheet.specs.Restarts.{Originated, Restarted};
ghost use Rattle.sheet.specs.Rules.{blank_rows};

use super::judging::judge;
use super::rules::clear_rows;
use curve::Point;
use network::Network;
use refusal::Refusal;
use runs::Heading;
use worklist::WorkList;

/// Clears all rows, and gives `node` an origin's label: who sets out at a minute is there at that minute.
fn begin_rows(heading: Heading, rows: &mut [u32], node: u32)
    requires room { heading.figures.nodes * width heading.figures.places ≤ length rows.old }
    requires node_below { node < heading.figures.nodes }
    ensures origin_alone { Rewritten heading.figures (blank_rows heading.figures rows.old) node (diagonal heading.figures.window) rows.new }
{
    clear_rows(heading, rows);
    let window = heading.window();
    let last = Point {
        departure: window,
        arrival: window,
    };
    heading.write_label(rows, node, &[Point::default(), last]);
}

/// Begins a sheet anew with `node` as its origin: gives it the only label, and puts it alone on the list.
pub fn restart<L: WorkList>(heading: &Heading, rows: &mut [u32], list: &mut L, node: u32)
    requires room { heading.now.figures.nodes * width heading.now.figures.places ≤ length rows.old }
    requires node_below { node < heading.now.figures.nodes }
    ensures restarted { (f : FiguresT) (ms ns : List ℕ) → Restarted L.WorkList.work (state heading.now.figures rows.old ms list.old) node (state f rows.new ns list.new) }
{
    begin_rows(*heading, rows, node);
    let _cleared = list.clear(heading.figures().nodes);
    let _put = list.put(node, 0);
}

// The parts of a sheet come one by one, as to `judge`.

/// Makes a node the origin, and begins the sheet anew with it. Refuses parts that may not be used together, then a node
/// that there is not.
pub fn origin<N: Network, L: WorkList>(
    net: &N,
    heading: &mut Heading,
    rows: &mut [u32],
    marks: &[u8],
    list: &mut L,
    node: u32,
) -> Result<(), Refusal>
    ensures refused_as_listed { JudgedThen (N.Network.means net.now) heading.old.figures rows.old marks.now (L.WorkList.bound list.old) (unplaced heading.old.figures node) (refusal result) }
    ensures originated { OnOk result (Originated L.WorkList.work (state heading.old.figures rows.old marks.now list.old) node (state heading.new.figures rows.new marks.now list.new)) }
    ensures fits { OnOk result (Fit (N.Network.means net.now) heading.new.figures rows.new marks.now (L.WorkList.bound list.new)) }
    ensures begins_even { OnOk result (Even L.WorkList.work (N.Network.means net.now) (state heading.new.figures rows.new marks.now list.new)) }
    ensures refused_keeps_all { OnErr result ((heading.new ≡ heading.old) × (rows.new ≡ rows.old) × (list.new ≡ list.old)) }
{
    judge(net, heading, rows, marks, list)?;
    if node >= heading.nodes() {
        return Err(Refusal::Range);
    }
    restart(heading, rows, list, node);
    heading.set_origin(node);
    Ok(())
}
