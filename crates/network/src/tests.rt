//! Examples.

use super::*;
use curve::Point;
use refusal::Refusal;
use std::test::Fail;

const POINTS: [Point; 4] = [
    Point {
        departure: 0,
        arrival: 10,
    },
    Point {
        departure: 20,
        arrival: 40,
    },
    Point {
        departure: 60,
        arrival: 70,
    },
    Point {
        departure: 0,
        arrival: 0,
    },
];

fn road(first: u32, count: u32) -> Road {
    Road {
        tail: 0,
        head: 1,
        first,
        count,
    }
}

#[test]
fn crosses_by_its_points(rt: HostRuntime) -> Result<(), Fail> {
    let roads = [road(0, 3), road(0, 1)];
    let net = Tabulated::try_new(2, &roads, &POINTS)?;
    assert_eq!(rt; net.cross(0, 5), Some(17));
    assert_eq!(rt; net.cross(0, 30), Some(47));
    assert_eq!(rt; net.cross(0, 60), Some(70));
    assert_eq!(rt; net.cross(0, LAST_MINUTE), Some(LAST_MINUTE + 10));
    assert_eq!(rt; net.cross(0, LAST_MINUTE + 1), None);
    assert_eq!(rt; net.cross(2, 0), None);
    assert_eq!(rt; net.least(0), Some(10));
    assert_eq!(rt; net.head(1), Some(1));
    assert_eq!(rt; net.tail(2), None);
    Ok(())
}

#[test]
fn refuses_the_lowest_road(rt: HostRuntime) {
    let roads = [road(0, 3), road(3, 1), road(0, 5)];
    assert_eq!(rt;
        Tabulated::check(0, &[], &POINTS),
        Err(Refusal::Table(None))
    );
    assert_eq!(rt;
        Tabulated::check(1025, &[], &POINTS),
        Err(Refusal::Table(None))
    );
    assert_eq!(rt;
        Tabulated::check(1, &roads, &POINTS),
        Err(Refusal::Table(Some(0)))
    );
    assert_eq!(rt;
        Tabulated::check(2, &roads, &POINTS),
        Err(Refusal::Table(Some(1)))
    );
    assert_eq!(rt;
        Tabulated::check(2, &[road(u32::MAX, 2)], &POINTS),
        Err(Refusal::Table(Some(0)))
    );
}
