ghost use Rattle.refusal.specs.Refusals.{refusal};
ghost use Rattle.sheet.specs.Judging.{Judged};

use forming::is_well_formed;
use network::Network;
use refusal::Refusal;
use runs::{Heading, Labels};
use worklist::WorkList;

// The parts of a sheet come one by one, and not as one value: each call is lent some to read and some to write, and the
// calls differ in which.

/// Refuses parts that may not be used together: rows or marks that are too short, then a network, a list and a heading
/// that disagree, or a sheet that is not well formed.
pub fn judge<N: Network, L: WorkList>(
    net: &N,
    heading: &Heading,
    rows: &[u32],
    marks: &[u8],
    list: &L,
) -> Result<(), Refusal>
    ensures judged { Judged (N.Network.means net.now) heading.now.figures rows.now marks.now (L.WorkList.bound list.now) (refusal result) }
{
    let figures = heading.figures();
    if rows.len() < heading.size_of_rows() || marks.len() < figures.roads as usize {
        return Err(Refusal::Short);
    }
    if net.nodes() != figures.nodes
        || net.roads() != figures.roads
        || list.bound() != figures.nodes
        || !is_well_formed(&Labels::new(*heading, rows), marks)
    {
        return Err(Refusal::Disagree);
    }
    Ok(())
}
