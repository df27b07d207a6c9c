//! Examples.

use super::*;
use curve::Point;
use network::{Road, Tabulated};
use std::process::Abort;
use std::test::Fail;
use timetable::{Interval, TimedRoad, Timetabled};

const POINTS: [Point; 3] = [
    Point {
        departure: 0,
        arrival: 10,
    },
    Point {
        departure: 20,
        arrival: 40,
    },
    Point {
        departure: 60,
        arrival: 70,
    },
];

const INTERVALS: [Interval; 1] = [Interval {
    opens: 10,
    closes: 15,
}];

const ROAD: Road = Road {
    tail: 0,
    head: 1,
    first: 0,
    count: 3,
};

const TIMED: TimedRoad = TimedRoad {
    tail: 1,
    head: 0,
    period: 60,
    time: 20,
    first: 0,
    count: 1,
};

fn in_pairs(rt: &impl Abort, tabulated: &Tabulated, timetabled: &Timetabled) -> Result<(), Fail> {
    let two = Joined::new(tabulated, timetabled)?;
    assert_eq!(rt; two.roads(), 2);
    assert_eq!(rt; two.cross(0, 5), Some(17));
    assert_eq!(rt; two.cross(1, 16), Some(90));
    assert_eq!(rt; two.tail(1), Some(1));
    let three = Joined::new(two, tabulated)?;
    assert_eq!(rt; three.cross(1, 15), Some(35));
    assert_eq!(rt; three.cross(2, 30), Some(47));
    assert_eq!(rt; three.least(3), None);
    Ok(())
}

#[test]
fn has_the_roads_of_all_parts(rt: HostRuntime) -> Result<(), Fail> {
    let roads = [ROAD];
    let timed = [TIMED];
    let tabulated = Tabulated::try_new(2, &roads, &POINTS)?;
    let timetabled = Timetabled::try_new(2, &timed, &INTERVALS)?;
    in_pairs(&rt, &tabulated, &timetabled)
}

#[test]
fn refuses_what_does_not_fit(rt: HostRuntime) -> Result<(), Fail> {
    let roads = [ROAD; 2049];
    let two = Tabulated::try_new(2, &roads, &POINTS)?;
    let three = Tabulated::try_new(3, &roads, &POINTS)?;
    assert_eq!(rt; Joined::new(&two, &three).err(), Some(Refusal::Table(None)));
    assert_eq!(rt;
        Joined::new(&two, &two).err(),
        Some(Refusal::Quota(Line { file: 0, line: 0 }))
    );
    Ok(())
}
