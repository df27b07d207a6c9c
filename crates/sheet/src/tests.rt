//! Examples: two nodes, and a road from the first to the second.

use super::*;
use curve::Point;
use network::{Road, Tabulated};
use refusal::Refusal;
use std::test::Fail;
use worklist::{Fifo, WorkList};

const ROADS: [Road; 1] = [Road {
    tail: 0,
    head: 1,
    first: 0,
    count: 1,
}];

const POINTS: [Point; 1] = [Point {
    departure: 0,
    arrival: 10,
}];

#[test]
fn a_day_is_the_longest_window(rt: HostRuntime) -> Result<(), Fail> {
    let net = Tabulated::try_new(2, &ROADS, &POINTS)?;
    let mut rows = [7; 12];
    let mut marks = [7; 2];
    let mut list = Fifo::new();
    assert_eq!(rt;
        rule(&net, &mut rows, &mut marks, &mut list, 1441, 2, 0),
        Err(Refusal::Figures)
    );
    assert_eq!(rt; marks, [7, 7]);
    let heading = rule(&net, &mut rows, &mut marks, &mut list, 1440, 2, 0)?;
    assert_eq!(rt; heading.window(), 1440);
    assert_eq!(rt; rows, [0, 0, 0, 0, 0, 0, 0, 0, 0, 0, 7, 7]);
    assert_eq!(rt; marks, [0, 7]);
    assert_eq!(rt; list.bound(), 2);
    Ok(())
}

#[test]
fn the_first_fault_is_named(rt: HostRuntime) -> Result<(), Fail> {
    let net = Tabulated::try_new(2, &ROADS, &POINTS)?;
    let mut rows = [7; 10];
    let mut marks = [7; 1];
    let mut list = Fifo::new();
    assert_eq!(rt;
        rule(&net, &mut [7; 9], &mut marks, &mut list, 60, 62, 0),
        Err(Refusal::Figures)
    );
    assert_eq!(rt;
        rule(&net, &mut [7; 9], &mut marks, &mut list, 60, 2, 0),
        Err(Refusal::Short)
    );
    let mut heading = rule(&net, &mut rows, &mut marks, &mut list, 60, 2, 0)?;
    assert_eq!(rt;
        origin(&net, &mut heading, &mut rows, &[], &mut list, 2),
        Err(Refusal::Short)
    );
    assert_eq!(rt;
        origin(&net, &mut heading, &mut rows, &[2], &mut list, 2),
        Err(Refusal::Disagree)
    );
    assert_eq!(rt;
        origin(&net, &mut heading, &mut rows, &[1], &mut list, 2),
        Err(Refusal::Range)
    );
    Ok(())
}

#[test]
fn an_origin_has_the_only_label(rt: HostRuntime) -> Result<(), Fail> {
    let net = Tabulated::try_new(2, &ROADS, &POINTS)?;
    let mut rows = [7; 12];
    let mut marks = [7; 1];
    let mut list = Fifo::new();
    let mut heading = rule(&net, &mut rows, &mut marks, &mut list, 60, 2, 100)?;
    origin(&net, &mut heading, &mut rows, &marks, &mut list, 0)?;
    origin(&net, &mut heading, &mut rows, &marks, &mut list, 1)?;
    assert_eq!(rt; rows, [0, 0, 0, 0, 0, 2, 0, 0, 60, 60, 7, 7]);
    assert_eq!(rt; heading.origin(), Some(1));
    assert_eq!(rt; list.take(), Some(1));
    assert_eq!(rt; list.take(), None);
    Ok(())
}
