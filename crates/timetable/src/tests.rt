//! Examples.

use super::*;
use network::Network;
use refusal::Refusal;
use std::test::Fail;

const INTERVALS: [Interval; 3] = [
    Interval {
        opens: 10,
        closes: 15,
    },
    Interval {
        opens: 16,
        closes: 16,
    },
    Interval {
        opens: 16,
        closes: 60,
    },
];

fn road(first: u32, count: u32) -> TimedRoad {
    TimedRoad {
        tail: 0,
        head: 1,
        period: 60,
        time: 20,
        first,
        count,
    }
}

#[test]
fn enters_when_open(rt: HostRuntime) -> Result<(), Fail> {
    let roads = [road(0, 1), road(0, 2)];
    let net = Timetabled::try_new(2, &roads, &INTERVALS)?;
    assert_eq!(rt; net.cross(0, 0), Some(30));
    assert_eq!(rt; net.cross(0, 15), Some(35));
    assert_eq!(rt; net.cross(0, 16), Some(90));
    assert_eq!(rt; net.cross(1, 16), Some(36));
    assert_eq!(rt; net.cross(1, 137), Some(210));
    assert_eq!(rt; net.least(0), Some(20));
    assert_eq!(rt; net.cross(2, 0), None);
    Ok(())
}

#[test]
fn refuses_the_lowest_road(rt: HostRuntime) {
    let touching = [road(0, 2), road(1, 2), road(2, 1)];
    assert_eq!(rt;
        Timetabled::check(2, &touching, &INTERVALS),
        Err(Refusal::Table(Some(1)))
    );
    assert_eq!(rt;
        Timetabled::check(2, &[road(2, 1)], &INTERVALS),
        Err(Refusal::Table(Some(0)))
    );
    assert_eq!(rt;
        Timetabled::check(2, &[road(0, 0)], &INTERVALS),
        Err(Refusal::Table(Some(0)))
    );
    assert_eq!(rt;
        Timetabled::check(0, &[], &INTERVALS),
        Err(Refusal::Table(None))
    );
}
