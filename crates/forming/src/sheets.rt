ghost use Rattle.std.specs.Prelude.{◌≡◌, ◌≤◌, length, MatchBool};
ghost use Rattle.forming.specs.Parts.{Begun, Holding, Marked};
ghost use Rattle.runs.specs.Formed.{WellFormed, labels_below};

use super::row_forms::{is_origin_row, is_row};
use runs::{Heading, Labels};

/// The most minutes that a label may gain over one road: 10,000 for the crossing and as many for the allowance.
const MOST_MINUTES: u32 = 20_000;

// A mark is a number and no `bool`: it stands in memory that is lent as numbers, where any other number is refused.

/// Whether the marks of the roads are all 0 or 1.
fn are_marks(heading: Heading, marks: &[u8]) -> bool
    requires { heading.figures.roads ≤ length marks.now }
    ensures marked_or_not { MatchBool result (Marked heading.figures marks.now) (Marked heading.figures marks.now → ⊥) }
{
    marks[..heading.roads() as usize]
        .iter()
        .all(|mark| *mark <= 1)
}

/// How many nodes have a label.
fn count_labels(labels: &Labels<'_>) -> u32
    ensures labels_counted { result ≡ labels_below labels.now.heading.figures labels.now.rows.now labels.now.heading.figures.nodes }
    ensures at_most_all { result ≤ labels.now.heading.figures.nodes }
{
    (0..labels.heading.nodes())
        .filter(|node| labels.has(*node))
        .count() as u32
}

/// Whether every row holds a label with no arrival after `limit`, or nothing.
fn are_rows(labels: &Labels<'_>, limit: u32) -> bool
    ensures rows_or_not { MatchBool result (Holding labels.now.heading.figures limit labels.now.rows.now) (Holding labels.now.heading.figures limit labels.now.rows.now → ⊥) }
{
    (0..labels.heading.nodes()).all(|node| is_row(labels, node, limit))
}

/// Whether the origin has an origin's row; without an origin, whether there are no labels.
fn begins(labels: &Labels<'_>, count: u32) -> bool
    requires counted { count ≡ labels_below labels.now.heading.figures labels.now.rows.now labels.now.heading.figures.nodes }
    ensures begun_or_not { MatchBool result (Begun labels.now.heading.figures labels.now.rows.now labels.now.heading.figures.origin) (Begun labels.now.heading.figures labels.now.rows.now labels.now.heading.figures.origin → ⊥) }
{
    match labels.heading.origin() {
        Some(origin) => is_origin_row(labels, origin),
        None => count == 0,
    }
}

/// Whether a sheet is well formed: its first rows and marks, one a node and one a road.
pub fn is_well_formed(labels: &Labels<'_>, marks: &[u8]) -> bool
    requires { labels.now.heading.figures.roads ≤ length marks.now }
    ensures well_formed_or_not { MatchBool result (WellFormed labels.now.heading.figures labels.now.rows.now marks.now) (WellFormed labels.now.heading.figures labels.now.rows.now marks.now → ⊥) }
{
    let count = count_labels(labels);
    let limit = labels.heading.window() + MOST_MINUTES * count.saturating_sub(1);
    if !are_marks(labels.heading, marks) || !are_rows(labels, limit) {
        return false;
    }
    begins(labels, count)
}
