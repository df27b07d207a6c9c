ghost use Rattle.refusal.specs.Refusals.{refusal};
ghost use Rattle.runs.specs.Settling.{Settles};
ghost use Rattle.runs.specs.Sheet.{state};
ghost use Rattle.runs.specs.Turns.{Worked};
ghost use Rattle.sheet.specs.Judging.{Fit, JudgedThen};
ghost use Rattle.std.specs.Prelude.{◌≡◌, IfOk, OnErr, OnOk};
ghost use Rattle.turns.specs.Working.{unstarted};

use super::turning::turns;
use network::Network;
use refusal::Refusal;
use runs::{Heading, Outcome, Sheet};
use sheet::judge;
use worklist::WorkList;

// The parts of a sheet come one by one, as to `judge`.

/// Finishes exactly `count` turns, unless the list empties or a label is full, and answers the turns that were finished
/// together with how it ended. Refuses parts that may not be used together, then a sheet without an origin.
pub fn work<'a, N: Network, L: WorkList>(
    net: &'a N,
    heading: &Heading,
    rows: &'a mut [u32],
    marks: &'a [u8],
    list: &'a mut L,
    count: u32,
) -> Result<(u32, Outcome), Refusal>
    ensures refused_as_listed { JudgedThen (N.Network.means net.now) heading.now.figures rows.old marks.now (L.WorkList.bound list.old) (unstarted heading.now.figures.origin) (refusal result) }
    ensures worked { IfOk result (λ x. Worked L.WorkList.work (N.Network.means net.now) (state heading.now.figures rows.old marks.now list.old) count x.0 x.1 (state heading.now.figures rows.new marks.now list.new)) }
    ensures settles { IfOk result (λ x. Settles L.WorkList.work (N.Network.means net.now) (state heading.now.figures rows.old marks.now list.old) x.1 (state heading.now.figures rows.new marks.now list.new)) }
    ensures fits { OnOk result (Fit (N.Network.means net.now) heading.now.figures rows.new marks.now (L.WorkList.bound list.new)) }
    ensures refused_keeps_all { OnErr result ((rows.new ≡ rows.old) × (list.new ≡ list.old)) }
{
    judge(net, heading, rows, marks, list)?;
    if heading.origin().is_none() {
        return Err(Refusal::NoOrigin);
    }
    let mut sheet = Sheet {
        net,
        heading: *heading,
        rows,
        marks,
        list,
    };
    Ok(turns(&mut sheet, count))
}
