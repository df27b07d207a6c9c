ghost use Rattle.std.specs.Prelude.{◌≡◌, ℕ, ◌+◌, ◌*◌, ◌<◌, ◌≤◌, true, List, length, MatchBool, MatchResult};
ghost use Rattle.corridor.specs.Curves.{Label};
ghost use Rattle.curve.specs.declared.points.Point.{Point};
ghost use Rattle.relaxing.specs.Labels.{Relabelled};
ghost use Rattle.rows.specs.Rows.{width};
ghost use Rattle.runs.specs.Parts.{SameParts, told};
ghost use Rattle.runs.specs.Ready.{Asked, Offered, Ready};
ghost use Rattle.runs.specs.Sheet.{Within, labelled};
ghost use Rattle.runs.specs.Turns.{Filled, Relaxed};

use super::curves::{cross_each, is_within, lower};
use corridor::{Bounds, Full};
use curve::Point as CurvePoint;
use network::Network;
use runs::{DEPARTURES, Heading, RoadOf, Sheet};
use worklist::WorkList;

// A corridor's two curves are two slices, too long to be answered by value, and nothing is allocated here: they are written
// where they are lent, and a `bool` is answered beside them. In one struct they would need its methods, and with each the
// promise that it keeps to the memory it was lent; a slice and its length say less.

// That a road is one of the sheet's and that its tail has a label is required of each function by itself: a value that knew
// it would have to borrow the rows, which relaxing writes.

/// Narrows what a road offers by the label that its head has; whether the road asks for a new label.
fn narrow<N: Network, L: WorkList>(
    sheet: &Sheet<'_, N, L>,
    road: u32,
    lo: &mut [u32],
    up: &mut [u32],
) -> bool
    requires road { road < sheet.now.heading.figures.roads }
    requires labelled { labelled sheet.now.heading.figures sheet.now.rows.now ((N.Network.means sheet.now.net.now).head road) ≡ true }
    requires lo_long { length lo.old ≡ sheet.now.heading.figures.window + 1 }
    requires up_long { length up.old ≡ sheet.now.heading.figures.window + 1 }
    requires offered { Offered (N.Network.means sheet.now.net.now) sheet.now.heading.figures sheet.now.rows.now road lo.old up.old }
    ensures asks_or_is_within { MatchBool result (Asked (N.Network.means sheet.now.net.now) sheet.now.heading.figures sheet.now.rows.now road lo.new up.new) (Within (N.Network.means sheet.now.net.now) sheet.now.heading.figures sheet.now.rows.now road) }
{
    let mut places = [0; DEPARTURES];
    let known = &mut places[..lo.len()];
    let net = sheet.net;
    let head = RoadOf { net, road }.head();
    sheet.labels().sample(head, known);
    if is_within(known, up) {
        return false;
    }
    lower(lo, known);
    lower(up, known);
    true
}

/// Writes the corridor that a road leaves to the label of its head; whether the road asks for a new label.
fn corridor_of<N: Network, L: WorkList>(
    sheet: &Sheet<'_, N, L>,
    road: u32,
    lo: &mut [u32],
    up: &mut [u32],
) -> bool
    requires road { road < sheet.now.heading.figures.roads }
    requires labelled { labelled sheet.now.heading.figures sheet.now.rows.now ((N.Network.means sheet.now.net.now).tail road) ≡ true }
    requires lo_long { length lo.old ≡ sheet.now.heading.figures.window + 1 }
    requires up_long { length up.old ≡ sheet.now.heading.figures.window + 1 }
    ensures asks_or_is_within { MatchBool result (Asked (N.Network.means sheet.now.net.now) sheet.now.heading.figures sheet.now.rows.now road lo.new up.new) (Within (N.Network.means sheet.now.net.now) sheet.now.heading.figures sheet.now.rows.now road) }
{
    let labels = sheet.labels();
    let net = sheet.net;
    let way = RoadOf { net, road };
    labels.sample(way.tail(), lo);
    cross_each(&way, way.allowance(sheet.heading), lo, up);
    if !labels.has(way.head()) {
        return true;
    }
    narrow(sheet, road, lo, up)
}

/// Gives a node the label between two curves, in its own row; the row is kept where it has not places enough.
fn relabel(heading: Heading, rows: &mut [u32], node: u32, bounds: &Bounds<'_>) -> Result<(), Full>
    requires room { heading.figures.nodes * width heading.figures.places ≤ length rows.old }
    requires node { node < heading.figures.nodes }
    ensures relabelled_or_full { MatchResult result (λ _. Relabelled heading.figures rows.old node bounds.now.lo.now bounds.now.up.now rows.new) (λ _. ((ps : List Point) → Label bounds.now.lo.now bounds.now.up.now ps → heading.figures.places < length ps) × (rows.new ≡ rows.old)) }
{
    let mut points = [CurvePoint::default(); DEPARTURES];
    let label = &mut points[..heading.places() as usize];
    let count = bounds.label(label)?;
    heading.write_label(rows, node, &label[..count]);
    Ok(())
}

/// Relaxes an open road whose tail has a label: where the label of its head is later than the road allows, the head
/// gets the corridor's label and is put on the list.
pub fn relax<N: Network, L: WorkList>(sheet: &mut Sheet<'_, N, L>, road: u32) -> Result<(), Full>
    requires road { road < sheet.old.heading.figures.roads }
    requires labelled { labelled sheet.old.heading.figures sheet.old.rows.now ((N.Network.means sheet.old.net.now).tail road) ≡ true }
    ensures same_parts { SameParts sheet.old sheet.new }
    ensures relaxed_or_full { MatchResult result (λ _. Relaxed L.WorkList.work (N.Network.means sheet.old.net.now) (told sheet.old) road (told sheet.new)) (λ _. Filled (N.Network.means sheet.old.net.now) (told sheet.old) road (told sheet.new)) }
{
    let departures = sheet.heading.window() as usize + 1;
    let (mut lo, mut up) = ([0; DEPARTURES], [0; DEPARTURES]);
    let (lo, up) = (&mut lo[..departures], &mut up[..departures]);
    if !corridor_of(sheet, road, lo, up) {
        return Ok(());
    }
    let net = sheet.net;
    let head = RoadOf { net, road }.head();
    let bounds = Bounds { lo, up };
    relabel(sheet.heading, sheet.rows, head, &bounds)?;
    let _ = sheet.list.put(head, lo[0]);
    Ok(())
}
