ghost use Rattle.std.specs.Prelude.{◌≡◌, ◌<◌, ◌≤◌, true, length, MatchResult};
ghost use Rattle.runs.specs.Parts.{SameParts, told};
ghost use Rattle.runs.specs.Sheet.{labelled};
ghost use Rattle.runs.specs.Turns.{Worked};
ghost use Rattle.turns.specs.Passing.{Blocked, Steps, Went};

use corridor::Full;
use network::Network;
use relaxing::relax;
use runs::{Outcome, RoadOf, Sheet};
use worklist::WorkList;

/// How a turn ended.
#[derive(Clone, Copy, PartialEq, Eq, Debug)]
pub enum Ended {
    /// Nothing waited.
    Idle,
    /// All open roads of the node that was taken are relaxed.
    Finished,
    /// The label that this road asks for is full; the node is put back.
    Full(u32),
}

/// Relaxes a road if it is open and leaves the node.
fn pass<N: Network, L: WorkList>(
    sheet: &mut Sheet<'_, N, L>,
    node: u32,
    road: u32,
) -> Result<(), Full>
    requires road { road < sheet.old.heading.figures.roads }
    requires marked { road < length sheet.old.marks.now }
    requires labelled { labelled sheet.old.heading.figures sheet.old.rows.now node ≡ true }
    ensures same_parts { SameParts sheet.old sheet.new }
    ensures stays_labelled { labelled sheet.old.heading.figures sheet.new.rows.now node ≡ true }
    ensures passed_or_full { MatchResult result (λ _. Steps L.WorkList.work (N.Network.means sheet.old.net.now) node road (told sheet.old) (told sheet.new)) (λ _. Blocked (N.Network.means sheet.old.net.now) node road (told sheet.old) (told sheet.new)) }
{
    let net = sheet.net;
    let way = RoadOf { net, road };
    // A road that is shut is not asked for its tail.
    if sheet.marks[road as usize] != 0 || way.tail() != node {
        return Ok(());
    }
    relax(sheet, road)
}

/// One turn: takes a waiting node and relaxes its open roads by rising number. Where a label is full the node is put
/// back.
pub fn turn<N: Network, L: WorkList>(sheet: &mut Sheet<'_, N, L>) -> Ended
    requires marked { sheet.old.heading.figures.roads ≤ length sheet.old.marks.now }
    ensures same_parts { SameParts sheet.old sheet.new }
    ensures went { Went L.WorkList.work (N.Network.means sheet.old.net.now) result (told sheet.old) (told sheet.new) }
{
    let Some(node) = sheet.list.take() else {
        return Ended::Idle;
    };
    if !sheet.labels().has(node) {
        return Ended::Finished;
    }
    for road in 0..sheet.heading.roads() {
        if let Err(Full) = pass(sheet, node, road) {
            let key = sheet.labels().first_arrival(node);
            let _ = sheet.list.put(node, key);
            return Ended::Full(road);
        }
    }
    Ended::Finished
}

/// Finishes `count` turns, unless nothing waits or a label is full: the turns that were finished, and how it ended.
pub fn turns<N: Network, L: WorkList>(sheet: &mut Sheet<'_, N, L>, count: u32) -> (u32, Outcome)
    requires marked { sheet.old.heading.figures.roads ≤ length sheet.old.marks.now }
    ensures same_parts { SameParts sheet.old sheet.new }
    ensures worked { Worked L.WorkList.work (N.Network.means sheet.old.net.now) (told sheet.old) count result.0 result.1 (told sheet.new) }
{
    for done in 0..count {
        match turn(sheet) {
            Ended::Idle => return (done, Outcome::Settled),
            Ended::Full(road) => return (done, Outcome::Full(road)),
            Ended::Finished => {}
        }
    }
    if sheet.list.is_empty() {
        (count, Outcome::Settled)
    } else {
        (count, Outcome::More)
    }
}
