//! Labels as rows of numbers: how many points, then a departure and an arrival for each.

#![tactic(auto)]

// Numbers and no structs: the rows of a sheet are memory that is lent as numbers, in this layout.

ghost use Rattle.std.specs.Prelude.{◌≡◌, ℕ, ◌+◌, ◌*◌, ◌^◌, ◌<◌, ◌≤◌, List, map, length, take, drop, slice_index, slice_index_or};
ghost use Rattle.curve.specs.Curve.{no_point};
ghost use Rattle.rows.specs.Rows.{laid_out, point_of, points, width};

use curve::Point;

/// The points of a row, each as its departure and its arrival.
pub fn pairs_of(row: &[u32]) -> &[[u32; 2]]
    requires whole { width (slice_index row.now 0) ≤ length row.now }
    ensures pairs_are_points { map point_of result.now ≡ points row.now }
    ensures counted { length result.now ≡ slice_index row.now 0 }
{
    let (pairs, _) = row[1..].as_chunks::<2>();
    &pairs[..row[0] as usize]
}

// No `From` of a pair: its two numbers have no names, and which of them comes first is this layout's alone.

/// The point of a departure and an arrival.
pub fn point_of(pair: &[u32; 2]) -> Point
    ensures departure_then_arrival { result ≡ point_of pair.now }
{
    let [departure, arrival] = *pair;
    Point { departure, arrival }
}

/// Reads a row's points into the first places of `out`, and says how many they are.
pub fn read_row(row: &[u32], out: &mut [Point]) -> usize
    requires whole { width (slice_index row.now 0) ≤ length row.now }
    requires room { slice_index row.now 0 ≤ length out.old }
    ensures count { result ≡ slice_index row.now 0 }
    ensures label_read { take result out.new ≡ points row.now }
    ensures rest_kept { drop result out.new ≡ drop result out.old }
{
    let pairs = pairs_of(row);
    // By index: `out.iter_mut().zip(pairs)` was tried, and a proof knows nothing of what it leaves in `out`.
    for (index, pair) in pairs.iter().enumerate() {
        out[index] = point_of(pair);
    }
    pairs.len()
}

/// Lays a label out as a row: how many points, the points, and 0 in the places left.
pub fn write_row(label: &[Point], row: &mut [u32])
    requires room { width (length label.now) ≤ length row.old }
    requires counted { length label.now < 2 ^ 32 }
    ensures label_laid_out { (P : ℕ) → length row.old ≡ width P → row.new ≡ laid_out P label.now }
{
    row[0] = label.len() as u32;
    // By index: `chunks_exact_mut` was tried, and a proof cannot name what it leaves in the row.
    for (index, point) in label.iter().enumerate() {
        row[2 * index + 1] = point.departure;
        row[2 * index + 2] = point.arrival;
    }
    row[2 * label.len() + 1..].fill(0);
}

/// Whatever is laid out as a row is read back from it.
pub fn rows_stand()
    ensures laid_out_reads_back { (P : ℕ) (ps : List Point) → points (laid_out P ps) ≡ ps }
{}

#[cfg(test)]
mod tests {
    use super::*;

    #[test]
    fn there_and_back(rt: HostRuntime) {
        let label = [
            Point {
                departure: 0,
                arrival: 20,
            },
            Point {
                departure: 60,
                arrival: 82,
            },
        ];
        let mut row = [7; 7];
        write_row(&label, &mut row);
        assert_eq!(rt; row, [2, 0, 20, 60, 82, 0, 0]);
        let mut back = [label[0]; 3];
        assert_eq!(rt; read_row(&[2, 0, 20, 60, 82, 0, 0], &mut back), 2);
        assert_eq!(rt; back[1].arrival, 82);
        assert_eq!(rt; back[2].arrival, 20);
    }
}
