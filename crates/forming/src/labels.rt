ghost use Rattle.std.specs.Prelude.{◌≡◌, ◌≤◌, length, map, MatchBool, slice_index};
ghost use Rattle.curve.specs.Curve.{climbing};
ghost use Rattle.forming.specs.Parts.{Prompt};
ghost use Rattle.rows.specs.Rows.{point_of, points, width};
ghost use Rattle.runs.specs.Formed.{Label};

use rows::{pairs_of, point_of};

// Beside `curve::is_climbing`, which takes points: a row is lent as numbers, and a list of its points would need memory of
// its own. What the two share is `climbs_to`.

/// Whether departures rise from point to point, and arrivals never fall.
fn is_climbing(pairs: &[[u32; 2]]) -> bool
    ensures climbs_or_not { result ≡ climbing (map point_of pairs.now) }
{
    pairs.is_sorted_by(|from, to| point_of(from).climbs_to(point_of(to)))
}

/// Whether no point arrives before it sets out, or after `limit`.
fn is_prompt(pairs: &[[u32; 2]], limit: u32) -> bool
    ensures prompt_or_not { MatchBool result (Prompt limit (map point_of pairs.now)) (Prompt limit (map point_of pairs.now) → ⊥) }
{
    pairs.iter().all(|[departure, arrival]| departure <= arrival && *arrival <= limit)
}

/// Whether a row's points are a label over the departures from 0 to `window`.
pub fn is_label(row: &[u32], window: u32, limit: u32) -> bool
    requires { width (slice_index row.now 0) ≤ length row.now }
    ensures label_or_not { MatchBool result (Label window limit (points row.now)) (Label window limit (points row.now) → ⊥) }
{
    let pairs = pairs_of(row);
    let [first, .., last] = pairs else {
        return false;
    };
    first[0] == 0 && last[0] == window && is_climbing(pairs) && is_prompt(pairs, limit)
}
