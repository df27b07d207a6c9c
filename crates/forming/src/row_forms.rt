ghost use Rattle.std.specs.Prelude.{◌≡◌, ◌<◌, length, MatchBool, ◌≢◌};
ghost use Rattle.forming.specs.Parts.{Zero};
ghost use Rattle.rows.specs.Rows.{laid_out};
ghost use Rattle.runs.specs.Formed.{Row};
ghost use Rattle.runs.specs.Sheet.{diagonal, row};

use super::labels::is_label;
use runs::Labels;

/// Whether every number is 0.
fn is_zero(numbers: &[u32]) -> bool
    ensures zero_or_not { MatchBool result (Zero numbers.now) (Zero numbers.now → ⊥) }
{
    numbers.iter().all(|number| *number == 0)
}

/// Whether a node's row holds a label with no arrival after `limit`, or nothing.
pub fn is_row(labels: &Labels<'_>, node: u32, limit: u32) -> bool
    requires { node < labels.now.heading.figures.nodes }
    ensures row_or_not { let f = labels.now.heading.figures in MatchBool result (Row f.places f.window limit (row f.places labels.now.rows.now node)) (Row f.places f.window limit (row f.places labels.now.rows.now node) → ⊥) }
{
    let heading = labels.heading;
    let row = labels.row(node);
    let count = row[0];
    if count > heading.places() || !is_zero(&row[1 + 2 * count as usize..]) {
        return false;
    }
    count == 0 || is_label(row, heading.window(), limit)
}

/// Whether a node's row is an origin's: who sets out at a minute is there at that minute.
pub fn is_origin_row(labels: &Labels<'_>, node: u32) -> bool
    requires { node < labels.now.heading.figures.nodes }
    ensures diagonal_or_not { let f = labels.now.heading.figures in MatchBool result (row f.places labels.now.rows.now node ≡ laid_out f.places (diagonal f.window)) (row f.places labels.now.rows.now node ≢ laid_out f.places (diagonal f.window)) }
{
    let row = labels.row(node);
    let window = labels.heading.window();
    row[..5] == [2, 0, 0, window, window] && is_zero(&row[5..])
}
