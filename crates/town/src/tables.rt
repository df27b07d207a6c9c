ghost use Rattle.network.specs.Tables.{tabulated};
ghost use Rattle.town.specs.Facts.{WorkedOut, town_points, town_roads};
ghost use Rattle.std.specs.Prelude.{◌≡◌};

use curve::Point;
use network::{Road, Tabulated};

/// How many nodes the town has.
pub const NODES: u32 = 4;

/// The last departure of its sheet.
pub const WINDOW: u32 = 60;

/// The allowance of its sheet: a tenth of a road's least time.
pub const ALLOWANCE: u32 = 1_000;

/// The node from which its sheet is worked out.
pub const ORIGIN: u32 = 0;

/// Its roads: from node 0 by node 1 to node 3, and from node 0 by node 2 to node 3.
pub const ROADS: [Road; 4] = [
    Road {
        tail: 0,
        head: 1,
        first: 0,
        count: 3,
    },
    Road {
        tail: 0,
        head: 2,
        first: 3,
        count: 1,
    },
    Road {
        tail: 1,
        head: 3,
        first: 4,
        count: 1,
    },
    Road {
        tail: 2,
        head: 3,
        first: 5,
        count: 3,
    },
];

/// The points of its roads, in the order of the roads.
pub const POINTS: [Point; 8] = [
    Point {
        departure: 0,
        arrival: 10,
    },
    Point {
        departure: 20,
        arrival: 40,
    },
    Point {
        departure: 60,
        arrival: 70,
    },
    Point {
        departure: 0,
        arrival: 15,
    },
    Point {
        departure: 0,
        arrival: 12,
    },
    Point {
        departure: 0,
        arrival: 5,
    },
    Point {
        departure: 30,
        arrival: 35,
    },
    Point {
        departure: 50,
        arrival: 75,
    },
];

/// The town as a network.
pub fn town() -> Tabulated<'static, 'static>
    ensures its_nodes { result.tables.nodes ≡ 4 }
    ensures its_roads { result.tables.roads.now ≡ town_roads }
    ensures its_points { result.tables.entries.now ≡ town_points }
{
    Tabulated::new(NODES, &ROADS, &POINTS)
}

/// What the tables of the town come to: crossings of its first road, and each road's allowance.
pub fn town_stands()
    ensures worked_out { WorkedOut (tabulated 4 town_roads town_points) }
{}
