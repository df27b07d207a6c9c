//! The town's sheet, worked out.

ghost use Rattle.network.specs.Tables.{tabulated};
ghost use Rattle.refusal.specs.Refusals.{number};
ghost use Rattle.runs.specs.Figured.{with_origin};
ghost use Rattle.sheet.specs.Rules.{plain};
ghost use Rattle.std.specs.Prelude.{◌≡◌, IfOk, MatchResult};

use super::*;
use network::{Network, Tabulated};
use refusal::Refusal;
use runs::Outcome;
use sheet::{Heading, origin, rule};
use std::test::Fail;
use turns::work;
use worklist::{Fifo, WorkList};

/// As many points as a row of the town's sheet has places for.
const PLACES: u32 = 8;

/// How many numbers the four rows of such a sheet have.
const SIZE: usize = 68;

/// The number by which a call was refused, if it was.
fn number_of<T: Drop>(answer: Result<T, Refusal>) -> Option<u32>
    ensures as_listed { MatchResult answer (λ _. result ≡ None) (λ e. result ≡ Some (number e)) }
{
    answer.err().map(Refusal::number)
}

/// Rules a sheet of the town with places for so many points a row, and begins it at the town's origin.
fn begin(
    net: &Tabulated<'_, '_>,
    rows: &mut [u32],
    marks: &mut [u8],
    list: &mut Fifo,
    places: u32,
) -> Result<Heading, Refusal>
    ensures begun { IfOk result (λ h. h.figures ≡ with_origin (plain (tabulated net.now.tables.nodes net.now.tables.roads.now net.now.tables.entries.now) 60 places 1000) 0) }
{
    let mut heading = rule(net, rows, marks, list, WINDOW, places, ALLOWANCE)?;
    origin(net, &mut heading, rows, marks, list, ORIGIN)?;
    Ok(heading)
}

#[test]
fn drops_fractions(rt: HostRuntime) {
    let net = town();
    assert_eq!(rt; net.cross(0, 5), Some(17));
    assert_eq!(rt; net.cross(0, 30), Some(47));
}

#[test]
fn settles(rt: HostRuntime) -> Result<(), Fail> {
    let net = town();
    let mut rows = [0; SIZE];
    let mut marks = [0; 4];
    let mut list = Fifo::new();
    let heading = begin(&net, &mut rows, &mut marks, &mut list, PLACES)?;
    assert_eq!(rt;
        work(&net, &heading, &mut rows, &marks, &mut list, 2)?,
        (2, Outcome::More)
    );
    assert_eq!(rt;
        work(&net, &heading, &mut rows, &marks, &mut list, 10)?,
        (2, Outcome::Settled)
    );
    assert_eq!(rt;
        &rows[51..68],
        [5, 0, 20, 16, 37, 25, 55, 28, 58, 60, 82, 0, 0, 0, 0, 0, 0].as_slice()
    );
    Ok(())
}

#[test]
fn is_full_at_road_3(rt: HostRuntime) -> Result<(), Fail> {
    let net = town();
    let mut rows = [0; 36];
    let mut marks = [0; 4];
    let mut list = Fifo::new();
    let heading = begin(&net, &mut rows, &mut marks, &mut list, 4)?;
    assert_eq!(rt;
        work(&net, &heading, &mut rows, &marks, &mut list, 10)?,
        (2, Outcome::Full(3))
    );
    assert_eq!(rt; &rows[27..36], [3, 0, 22, 20, 52, 60, 82, 0, 0].as_slice());
    Ok(())
}

#[test]
fn rules_a_day_and_no_more(rt: HostRuntime) -> Result<(), Fail> {
    let net = town();
    let mut rows = [7; 20];
    let mut short = [7; 19];
    let mut marks = [1; 4];
    let mut list = Fifo::new();
    assert_eq!(rt;
        number_of(rule(&net, &mut short, &mut marks, &mut list, 1441, 2, 0)),
        Some(1)
    );
    assert_eq!(rt;
        number_of(rule(&net, &mut short, &mut marks, &mut list, 1440, 2, 0)),
        Some(5)
    );
    assert!(rt; short == [7; 19] && marks == [1; 4] && list.bound() == 1);
    let heading = rule(&net, &mut rows, &mut marks, &mut list, 1440, 2, 0)?;
    assert_eq!(rt; heading.window(), 1440);
    assert!(rt; rows == [0; 20] && marks == [0; 4] && list.bound() == 4);
    Ok(())
}

#[test]
fn refuses_an_origin(rt: HostRuntime) -> Result<(), Fail> {
    let net = town();
    let mut rows = [7; 20];
    let mut short = [7; 19];
    let mut marks = [0; 4];
    let mut list = Fifo::new();
    let mut heading = rule(&net, &mut rows, &mut marks, &mut list, WINDOW, 2, ALLOWANCE)?;
    assert_eq!(rt;
        number_of(origin(&net, &mut heading, &mut short, &marks, &mut list, 4)),
        Some(5)
    );
    assert_eq!(rt;
        number_of(origin(&net, &mut heading, &mut rows, &marks, &mut list, 4)),
        Some(8)
    );
    assert!(rt; short == [7; 19] && rows == [0; 20] && list.is_empty());
    assert_eq!(rt; heading.origin(), None);
    Ok(())
}

#[test]
fn refuses_to_work(rt: HostRuntime) -> Result<(), Fail> {
    let net = town();
    let mut rows = [0; 20];
    let mut marks = [0; 4];
    let mut list = Fifo::new();
    let heading = rule(&net, &mut rows, &mut marks, &mut list, WINDOW, 2, ALLOWANCE)?;
    assert_eq!(rt;
        number_of(work(&net, &heading, &mut rows, &marks, &mut list, 1)),
        Some(7)
    );
    rows[5] = 1;
    let spoilt = rows;
    assert_eq!(rt;
        number_of(work(&net, &heading, &mut rows, &marks, &mut list, 1)),
        Some(6)
    );
    assert!(rt; rows == spoilt && list.is_empty());
    Ok(())
}
