//! Networks whose roads open by a timetable.

ghost use Rattle.network.specs.Kinds.{Kept};
ghost use Rattle.refusal.specs.Refusals.{refusal};
ghost use Rattle.std.specs.Prelude.{◌≡◌, IfOk, None};
ghost use Rattle.timetable.specs.Timed.{timed_roads_lawful, timetable_laws};
ghost use Rattle.timetable.specs.Timetables.{run_of, tables_fault, timed_kind, timetabled};

use super::hours::Hours;
use super::judging::{is_ascending, is_timed};
use super::tables::{Interval, TimedRoad};
use network::{Network, TableRoad, Tables};
use refusal::Refusal;

/// A network over lent tables of timetabled roads and of their intervals.
// A type of its own, as `Tabulated` is one.
#[derive(Drop)]
pub struct Timetabled<'r, 'i> {
    tables: Tables<'r, 'i, TimedRoad>,
}

impl<'r, 'i> Timetabled<'r, 'i> {
    /// Whether tables make a network; if not, why: the number of nodes or roads, else the lowest road that
    /// breaks its rule.
    pub fn check(nodes: u32, roads: &[TimedRoad], intervals: &[Interval]) -> Result<(), Refusal>
        ensures refused_at_lowest_road { refusal result ≡ tables_fault nodes roads.now intervals.now }
    {
        Tables::check(nodes, roads, intervals)
    }

    /// The network of tables that `check` accepts.
    pub fn new(nodes: u32, roads: &'r [TimedRoad], intervals: &'i [Interval]) -> Timetabled<'r, 'i>
        requires accepted { tables_fault nodes roads.now intervals.now ≡ None }
        ensures same_nodes { result.tables.nodes ≡ nodes }
        ensures same_roads { result.tables.roads.now ≡ roads.now }
        ensures same_intervals { result.tables.entries.now ≡ intervals.now }
    {
        Timetabled {
            tables: Tables::new(nodes, roads, intervals),
        }
    }

    /// The network of tables, or why they make none, as `check` says.
    pub fn try_new(
        nodes: u32,
        roads: &'r [TimedRoad],
        intervals: &'i [Interval],
    ) -> Result<Timetabled<'r, 'i>, Refusal>
        ensures refused_at_lowest_road { refusal result ≡ tables_fault nodes roads.now intervals.now }
        ensures holds_tables { IfOk result (λ net. (net.tables.nodes ≡ nodes) × (net.tables.roads.now ≡ roads.now) × (net.tables.entries.now ≡ intervals.now)) }
    {
        let tables = Tables::try_new(nodes, roads, intervals)?;
        Ok(Timetabled { tables })
    }
}

impl Network for Timetabled<'_, '_> {
    ghost means = { λ s. timetabled s.tables.nodes s.tables.roads.now s.tables.entries.now };

    ghost lawful = { λ s. timetable_laws.lawful s.tables.nodes s.tables.roads.now s.tables.entries.now s.tables.accepted };

    fn nodes(&self) -> u32 {
        self.tables.nodes()
    }

    fn roads(&self) -> u32 {
        self.tables.roads()
    }

    fn tail(&self, r: u32) -> Option<u32> {
        self.tables.tail(r)
    }

    fn head(&self, r: u32) -> Option<u32> {
        self.tables.head(r)
    }

    fn least(&self, r: u32) -> Option<u32> {
        self.tables.least(r)
    }

    fn cross(&self, r: u32, x: u32) -> Option<u32> {
        self.tables.cross(r, x)
    }
}

// Each kind of road cuts its run out of its own table, tested or kept by its rule: a line, which a call would not shorten.

impl TimedRoad {
    /// When a road that keeps its rule may be entered.
    #[tactic(auto, using(crate::specs::Timed::road_some))]
    fn hours(self, intervals: &[Interval]) -> Hours
        requires kept { Kept timed_kind intervals.now self }
        ensures its_period { result.period ≡ self.period }
        ensures its_intervals { result.intervals.now ≡ run_of intervals.now self }
    {
        let first = self.first as usize;
        Hours {
            period: self.period,
            intervals: &intervals[first..first + self.count as usize],
        }
    }
}

impl TableRoad for TimedRoad {
    type Entry = Interval;

    ghost kind = { timed_kind };

    ghost lawful = { timed_roads_lawful };

    fn tail(&self) -> u32 {
        self.tail
    }

    fn head(&self) -> u32 {
        self.head
    }

    fn keeps_rule(&self, nodes: u32, intervals: &[Interval]) -> bool {
        let first = self.first as usize;
        let Some(run) = intervals.get(first..first + self.count as usize) else {
            return false;
        };
        is_timed(*self)
            && self.tail < nodes
            && self.head < nodes
            && self.count >= 1
            && is_ascending(run, self.period)
    }

    fn least(&self, _intervals: &[Interval]) -> u32 {
        self.time
    }

    fn cross(&self, intervals: &[Interval], x: u32) -> u32 {
        self.hours(intervals).entry(x) + self.time
    }
}
