ghost use Rattle.std.specs.Prelude.{◌≡◌, ℕ, ◌+◌, ◌<◌, ◌≤◌, min, length, MatchBool, slice_index};
ghost use Rattle.network.specs.Net.{Net};

use network::Network;
use runs::RoadOf;

// One slice goes by its items, the other by index: `iter_mut().zip(..)` was tried in both functions that write, and a proof
// knows nothing of what it leaves in the slices.

/// Turns arrivals at a road's tail into arrivals at its head, and writes these with `late` minutes more beside them.
pub fn cross_each<N: Network>(road: &RoadOf<'_, N>, late: u32, lo: &mut [u32], up: &mut [u32])
    requires late { late ≤ 10000 }
    requires same { length up.old ≡ length lo.old }
    requires asked { (t : ℕ) → t < length lo.old → slice_index lo.old t ≤ 20461440 }
    ensures crossed { (t : ℕ) → t < length lo.old → slice_index lo.new t ≡ (N.Network.means road.now.net.now).cross road.now.road (slice_index lo.old t) }
    ensures late_beside { (t : ℕ) → t < length lo.old → slice_index up.new t ≡ (N.Network.means road.now.net.now).cross road.now.road (slice_index lo.old t) + late }
{
    for (t, arrival) in lo.iter_mut().enumerate() {
        *arrival = road.cross(*arrival);
        up[t] = *arrival + late;
    }
}

/// Whether a label is nowhere later than the bound.
pub fn is_within(label: &[u32], bound: &[u32]) -> bool
    requires same { length bound.now ≡ length label.now }
    ensures nowhere_later { MatchBool result ((t : ℕ) → t < length label.now → slice_index label.now t ≤ slice_index bound.now t) ((t : ℕ) × (t < length label.now) × (slice_index bound.now t < slice_index label.now t)) }
{
    label.iter().zip(bound).all(|(label, bound)| label <= bound)
}

/// Lowers a bound to a label wherever the label is earlier.
pub fn lower(bound: &mut [u32], label: &[u32])
    requires same { length bound.old ≡ length label.now }
    ensures earlier_of_both { (t : ℕ) → t < length label.now → slice_index bound.new t ≡ min (slice_index label.now t) (slice_index bound.old t) }
{
    for (t, bound) in bound.iter_mut().enumerate() {
        *bound = label[t].min(*bound);
    }
}
