//! What holds of graph files.

#![tactic(auto)]

ghost use Rattle.graph_laws.specs.Faults.{FrontDecides, NamesLine};
ghost use Rattle.graph_laws.specs.Grammar.{TakesGraphFiles, TakesNothingElse};
ghost use Rattle.graph_laws.specs.Overtaking.{LoadsGraphFiles, LoadsNothingElse, NamesLowestRoad, PointsInRoadOrder};

/// Exactly the texts that are graph files are taken.
pub fn grammar_stands()
    ensures takes_graph_files { TakesGraphFiles }
    ensures takes_nothing_else { TakesNothingElse }
{}

/// Exactly the graph files without overtaking are loaded, and the lowest road that is overtaken
/// is named.
pub fn overtaking_stands()
    ensures loads_graph_files { LoadsGraphFiles }
    ensures loads_nothing_else { LoadsNothingElse }
    ensures names_lowest_road { NamesLowestRoad }
{}

/// A road's points stand one after another, in the order of the files.
pub fn road_order_stands()
    ensures points_in_road_order { PointsInRoadOrder }
{}

/// A refused text is refused at its first fault.
pub fn faults_stand()
    ensures names_line { NamesLine }
    ensures front_decides { FrontDecides }
{}

#[cfg(test)]
mod tests {
    use curve::Point;
    use graph_file::{Loaded, load};
    use network::Road;
    use refusal::{Line, Refusal};
    use std::process::Abort;

    const ROAD: Road = Road {
        tail: 9,
        head: 9,
        first: 9,
        count: 9,
    };

    const POINT: Point = Point {
        departure: 9,
        arrival: 9,
    };

    // A text is refused so, with nothing left in the tables.
    fn refuses(rt: &impl Abort, text: &[u8], spacing: u32, refusal: Refusal) {
        let mut roads = [ROAD; 3];
        let mut points = [POINT; 6];
        assert_eq!(rt;
            load(text, spacing, 64, &mut roads, &mut points),
            Err(refusal)
        );
        assert_eq!(rt; roads, [Road::default(); 3]);
        assert_eq!(rt; points, [Point::default(); 6]);
    }

    #[test]
    fn two_files(rt: HostRuntime) {
        let mut roads = [ROAD; 2];
        let mut points = [POINT; 3];
        let text = b"c two\np sp 2 1\na 1 2 30\np sp 2 1\na 1 2 50";
        let loaded = Loaded {
            nodes: 2,
            roads: 1,
            files: 2,
        };
        assert_eq!(rt; load(text, 60, 64, &mut roads, &mut points), Ok(loaded));
        let road = Road {
            tail: 0,
            head: 1,
            first: 0,
            count: 2,
        };
        assert_eq!(rt; roads, [road, Road::default()]);
        let first = Point {
            departure: 0,
            arrival: 30,
        };
        let second = Point {
            departure: 60,
            arrival: 110,
        };
        assert_eq!(rt; points, [first, second, Point::default()]);
    }

    #[test]
    fn refused(rt: HostRuntime) {
        let one = Line { file: 1, line: 1 };
        let second = Line { file: 1, line: 2 };
        refuses(&rt, b"p sp 2 0", 0, Refusal::Figures);
        refuses(&rt, b"", 60, Refusal::Text(one));
        refuses(&rt, b"c only", 60, Refusal::Text(second));
        refuses(&rt, b"p sp 2 0\n\n", 60, Refusal::Text(second));
        refuses(&rt, b"p sp 2 99999999999999999999", 60, Refusal::Quota(one));
        refuses(&rt, b"p sp 2 1\r\n", 60, Refusal::Text(one));
        refuses(&rt, b"p sp 2 1\na 1 2 10001", 60, Refusal::Text(second));
        refuses(
            &rt,
            b"p sp 2 1\npp",
            60,
            Refusal::Text(Line { file: 2, line: 2 }),
        );
        refuses(
            &rt,
            b"p sp 2 1\na 1 2 90\np sp 2 1\na 1 2 29\n",
            60,
            Refusal::Table(Some(0)),
        );
    }
}
