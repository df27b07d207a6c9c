//! Networks over lent tables, for each kind of road that is given by a table.

ghost use Rattle.network.specs.Kinds.{Kept, Kind, LawfulKind, fault, meant, tables_lawful};
ghost use Rattle.refusal.specs.Refusals.{refusal};
ghost use Rattle.std.specs.Prelude.{◌≡◌, ◌<◌, ◌≤◌, ◌↔◌, not, length, IfOk, IfSome, IsSome, None, position, slice_index_or};

use super::meaning::{LAST_MINUTE, MOST_NODES, MOST_ROADS, Network};
use refusal::Refusal;

/// A kind of road that is given by tables: each road has a run of entries inside a table of them.
pub trait TableRoad: Copy {
    type Entry;

    ghost kind: { Kind Self Self.Entry };

    // Above the functions, since what a network of tables owes is made of it.
    ghost lawful: { LawfulKind kind };

    /// The node at which the road begins.
    fn tail(&self) -> u32
        ensures tail_as_meant { result ≡ kind.tail self.now };

    /// The node at which the road ends.
    fn head(&self) -> u32
        ensures head_as_meant { result ≡ kind.head self.now };

    /// Whether the road keeps its rule.
    fn keeps_rule(&self, nodes: u32, entries: &[Self::Entry]) -> bool
        ensures as_ruled { result ≡ kind.right nodes entries.now self.now };

    /// A time than which no crossing of the road is quicker.
    fn least(&self, entries: &[Self::Entry]) -> u32
        requires kept { Kept kind entries.now self.now }
        ensures least_as_meant { result ≡ kind.least entries.now self.now };

    /// The arrival of whoever enters the road at minute `x`.
    fn cross(&self, entries: &[Self::Entry], x: u32) -> u32
        requires kept { Kept kind entries.now self.now }
        requires early { x ≤ 20461440 }
        ensures cross_as_meant { result ≡ kind.cross entries.now self.now x };
}

/// A network over lent tables that keep their rule.
#[derive(Drop)]
pub struct Tables<'r, 'e, R: TableRoad> {
    nodes: u32,
    roads: &'r [R],
    entries: &'e [R::Entry],
    ghost accepted: { fault R.TableRoad.kind nodes roads.now entries.now ≡ None },
}

impl<'r, 'e, R: TableRoad> Tables<'r, 'e, R> {
    /// The first road that breaks its rule.
    fn first_wrong(nodes: u32, roads: &[R], entries: &[R::Entry]) -> Option<usize>
        ensures lowest_or_none { result ≡ position (λ road. not (R.TableRoad.kind.right nodes entries.now road)) roads.now }
    {
        roads
            .iter()
            .position(|road| !road.keeps_rule(nodes, entries))
    }

    /// Whether tables make a network; if not, why: the number of nodes or roads, else the lowest road that
    /// breaks its rule.
    pub fn check(nodes: u32, roads: &[R], entries: &[R::Entry]) -> Result<(), Refusal>
        ensures refused_at_lowest_road { refusal result ≡ fault R.TableRoad.kind nodes roads.now entries.now }
    {
        if !(1..=MOST_NODES).contains(&nodes) || roads.len() > MOST_ROADS as usize {
            return Err(Refusal::Table(None));
        }
        match Tables::first_wrong(nodes, roads, entries) {
            Some(r) => Err(Refusal::Table(Some(r as u32))),
            None => Ok(()),
        }
    }

    /// The network of tables that `check` accepts.
    pub fn new(nodes: u32, roads: &'r [R], entries: &'e [R::Entry]) -> Tables<'r, 'e, R>
        requires accepted { fault R.TableRoad.kind nodes roads.now entries.now ≡ None }
        ensures same_nodes { result.nodes ≡ nodes }
        ensures same_roads { result.roads.now ≡ roads.now }
        ensures same_entries { result.entries.now ≡ entries.now }
    {
        Tables {
            nodes,
            roads,
            entries,
        }
    }

    /// The network of tables, or why they make none, as `check` says.
    pub fn try_new(
        nodes: u32,
        roads: &'r [R],
        entries: &'e [R::Entry],
    ) -> Result<Tables<'r, 'e, R>, Refusal>
        ensures refused_at_lowest_road { refusal result ≡ fault R.TableRoad.kind nodes roads.now entries.now }
        ensures holds_tables { IfOk result (λ net. (net.nodes ≡ nodes) × (net.roads.now ≡ roads.now) × (net.entries.now ≡ entries.now)) }
    {
        Tables::check(nodes, roads, entries)?;
        Ok(Tables::new(nodes, roads, entries))
    }

    /// The road `r`, which keeps its rule; none exactly where there is no such road.
    #[tactic(auto, using(crate::specs::Kinds::road_right_at))]
    fn road(&self, r: u32) -> Option<&R>
        ensures none_past_the_last { IsSome result ↔ (r < length self.now.roads.now) }
        ensures its_road { IfSome result (λ road. road.now ≡ slice_index_or self.now.roads.now r R.TableRoad.kind.no_road) }
        ensures keeps_its_rule { IfSome result (λ road. Kept R.TableRoad.kind self.now.entries.now road.now) }
    {
        self.roads.get(r as usize)
    }
}

impl<R: TableRoad> Network for Tables<'_, '_, R> {
    ghost means = { λ s. meant R.TableRoad.kind s.nodes s.roads.now s.entries.now };

    ghost lawful = { λ s. tables_lawful R.TableRoad.kind s.nodes s.roads.now s.entries.now R.TableRoad.lawful s.accepted };

    fn nodes(&self) -> u32 {
        self.nodes
    }

    fn roads(&self) -> u32 {
        self.roads.len() as u32
    }

    fn tail(&self, r: u32) -> Option<u32> {
        Some(self.road(r)?.tail())
    }

    fn head(&self, r: u32) -> Option<u32> {
        Some(self.road(r)?.head())
    }

    fn least(&self, r: u32) -> Option<u32> {
        Some(self.road(r)?.least(self.entries))
    }

    fn cross(&self, r: u32, x: u32) -> Option<u32> {
        let road = self.road(r)?;
        if x > LAST_MINUTE {
            return None;
        }
        Some(road.cross(self.entries, x))
    }
}
