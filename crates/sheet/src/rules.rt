ghost use Rattle.std.specs.Prelude.{◌≡◌, ◌*◌, ◌≤◌, length, IfOk, OnErr};
ghost use Rattle.refusal.specs.Refusals.{or_else, refusal};
ghost use Rattle.rows.specs.Rows.{width};
ghost use Rattle.runs.specs.Figured.{ruled};
ghost use Rattle.runs.specs.Sheet.{state};
ghost use Rattle.sheet.specs.Judging.{Fit};
ghost use Rattle.sheet.specs.Rules.{Ruled, blank_marks, blank_rows, cramped, plain, unruly};

use network::Network;
use refusal::Refusal;
use runs::{Figures, Heading};
use worklist::WorkList;

/// The last departure that a sheet may have: the minutes of a day.
pub const LAST_WINDOW: u32 = 1440;

/// The largest allowance: as much as a road's least time.
pub const LARGEST_ALLOWANCE: u32 = 10_000;

/// Whether a sheet may have this window, these places and this allowance.
fn is_ruled(window: u32, places: u32, allowance: u32) -> bool
    ensures ruled_or_not { result ≡ ruled window places allowance }
{
    (1..=LAST_WINDOW).contains(&window)
        && (2..=window + 1).contains(&places)
        && allowance <= LARGEST_ALLOWANCE
}

// Rows and marks are cleared apart: they differ in their numbers and in the figure that measures them, which is all that a
// line of each says.

/// Makes every number of the sheet's rows 0.
pub fn clear_rows(heading: Heading, rows: &mut [u32])
    requires { heading.figures.nodes * width heading.figures.places ≤ length rows.old }
    ensures rows_cleared { rows.new ≡ blank_rows heading.figures rows.old }
{
    rows[..heading.size_of_rows()].fill(0);
}

/// Makes every mark of the sheet's roads 0.
fn clear_marks(heading: Heading, marks: &mut [u8])
    requires { heading.figures.roads ≤ length marks.old }
    ensures marks_cleared { marks.new ≡ blank_marks heading.figures marks.old }
{
    marks[..heading.roads() as usize].fill(0);
}

// The parts of a sheet come one by one, as to `judge`.

/// Rules a sheet for a network: clears its rows, its marks and the list, and answers a heading with no origin. Memory past
/// the rows and marks is kept. Refuses figures out of range, then rows or marks that are too short.
pub fn rule<N: Network, L: WorkList>(
    net: &N,
    rows: &mut [u32],
    marks: &mut [u8],
    list: &mut L,
    window: u32,
    places: u32,
    allowance: u32,
) -> Result<Heading, Refusal>
    ensures refused_as_listed { refusal result ≡ or_else (unruly window places allowance) (cramped (N.Network.means net.now).nodes (N.Network.means net.now).roads places rows.old marks.old) }
    ensures ruled { IfOk result (λ h. Ruled L.WorkList.work (plain (N.Network.means net.now) window places allowance) rows.old marks.old list.old (state h.figures rows.new marks.new list.new)) }
    ensures fits { IfOk result (λ h. Fit (N.Network.means net.now) h.figures rows.new marks.new (L.WorkList.bound list.new)) }
    ensures refused_keeps_all { OnErr result ((rows.new ≡ rows.old) × (marks.new ≡ marks.old) × (list.new ≡ list.old)) }
{
    if !is_ruled(window, places, allowance) {
        return Err(Refusal::Figures);
    }
    let heading = Heading::new(Figures {
        nodes: net.nodes(),
        roads: net.roads(),
        window,
        places,
        allowance,
        origin: None,
    });
    if rows.len() < heading.size_of_rows() || marks.len() < heading.figures().roads as usize {
        return Err(Refusal::Short);
    }
    clear_rows(heading, rows);
    clear_marks(heading, marks);
    let _cleared = list.clear(heading.figures().nodes);
    Ok(heading)
}
