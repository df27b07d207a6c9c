//! Networks whose roads are given by tables of points.

ghost use Rattle.network.specs.Kinds.{Kept};
ghost use Rattle.network.specs.Tabled.{roads_lawful, tables_laws};
ghost use Rattle.network.specs.Tables.{quickest, road_kind, run_of, tables_fault, tabulated};
ghost use Rattle.refusal.specs.Refusals.{refusal};
ghost use Rattle.std.specs.Prelude.{◌≡◌, IfOk, None};

use super::judging::{MOST_POINTS, is_run_right};
use super::kinds::{TableRoad, Tables};
use super::meaning::Network;
use super::tables::Road;
use curve::{Point, Run};
use refusal::Refusal;

/// A network over lent tables of roads and of their points.
// A type of its own, and no other name for its tables: a trait object needs an impl without a type parameter.
#[derive(Drop)]
pub struct Tabulated<'r, 'p> {
    tables: Tables<'r, 'p, Road>,
}

impl<'r, 'p> Tabulated<'r, 'p> {
    /// Whether tables make a network; if not, why: the number of nodes or roads, else the lowest road that
    /// breaks its rule.
    pub fn check(nodes: u32, roads: &[Road], points: &[Point]) -> Result<(), Refusal>
        ensures refused_at_lowest_road { refusal result ≡ tables_fault nodes roads.now points.now }
    {
        Tables::check(nodes, roads, points)
    }

    /// The network of tables that `check` accepts.
    pub fn new(nodes: u32, roads: &'r [Road], points: &'p [Point]) -> Tabulated<'r, 'p>
        requires accepted { tables_fault nodes roads.now points.now ≡ None }
        ensures same_nodes { result.tables.nodes ≡ nodes }
        ensures same_roads { result.tables.roads.now ≡ roads.now }
        ensures same_points { result.tables.entries.now ≡ points.now }
    {
        Tabulated {
            tables: Tables::new(nodes, roads, points),
        }
    }

    /// The network of tables, or why they make none, as `check` says.
    pub fn try_new(
        nodes: u32,
        roads: &'r [Road],
        points: &'p [Point],
    ) -> Result<Tabulated<'r, 'p>, Refusal>
        ensures refused_at_lowest_road { refusal result ≡ tables_fault nodes roads.now points.now }
        ensures holds_tables { IfOk result (λ net. (net.tables.nodes ≡ nodes) × (net.tables.roads.now ≡ roads.now) × (net.tables.entries.now ≡ points.now)) }
    {
        let tables = Tables::try_new(nodes, roads, points)?;
        Ok(Tabulated { tables })
    }
}

impl Network for Tabulated<'_, '_> {
    ghost means = { λ s. tabulated s.tables.nodes s.tables.roads.now s.tables.entries.now };

    ghost lawful = { λ s. tables_laws.lawful s.tables.nodes s.tables.roads.now s.tables.entries.now s.tables.accepted };

    fn nodes(&self) -> u32 {
        self.tables.nodes()
    }

    fn roads(&self) -> u32 {
        self.tables.roads()
    }

    fn tail(&self, r: u32) -> Option<u32> {
        self.tables.tail(r)
    }

    fn head(&self, r: u32) -> Option<u32> {
        self.tables.head(r)
    }

    fn least(&self, r: u32) -> Option<u32> {
        self.tables.least(r)
    }

    fn cross(&self, r: u32, x: u32) -> Option<u32> {
        self.tables.cross(r, x)
    }
}

/// The smallest time that passes at a point of a run.
fn least_on(run: &Run) -> u32
    ensures smallest { result ≡ quickest run.now.points.now }
{
    run.points.iter().map(|p| p.span()).min().unwrap()
}

// Each kind of road cuts its run out of its own table, tested or kept by its rule: a line, which a call would not shorten.

impl Road {
    /// The points of a road that keeps its rule.
    #[tactic(auto, using(crate::specs::Tabled::road_late))]
    fn run(self, points: &[Point]) -> Run
        requires kept { Kept road_kind points.now self }
        ensures its_points { result.points.now ≡ run_of points.now self }
    {
        let first = self.first as usize;
        Run::new(&points[first..first + self.count as usize])
    }
}

impl TableRoad for Road {
    type Entry = Point;

    ghost kind = { road_kind };

    ghost lawful = { roads_lawful };

    fn tail(&self) -> u32 {
        self.tail
    }

    fn head(&self) -> u32 {
        self.head
    }

    fn keeps_rule(&self, nodes: u32, points: &[Point]) -> bool {
        let first = self.first as usize;
        let Some(run) = points.get(first..first + self.count as usize) else {
            return false;
        };
        (1..=MOST_POINTS).contains(&self.count)
            && self.tail < nodes
            && self.head < nodes
            && is_run_right(run)
    }

    fn least(&self, points: &[Point]) -> u32 {
        least_on(&self.run(points))
    }

    #[tactic(auto, using(crate::specs::Tabled::road_begins, crate::specs::Tabled::road_late))]
    fn cross(&self, points: &[Point], x: u32) -> u32 {
        self.run(points).read(x)
    }
}
