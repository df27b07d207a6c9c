ghost use Rattle.std.specs.Prelude.{◌≡◌, ℕ, ◌+◌, ◌-◌, ◌*◌, ◌<◌, ◌≤◌, length};
ghost use Rattle.std.specs.BinaryHeap.Sift.{IsGreaterChild, SiftsDown, SiftsUp};
ghost use Rattle.std.specs.List.Sorted.{IsPermutation};
ghost use Rattle.std.specs.Ordering.{flip_args};

use crate::Entry;

// Loops, since no iterator walks a path in a tree.

/// Moves the last entry up, until it does not come before its parent.
pub(crate) fn sift_up<T: Entry>(heap: &mut [T])
    requires { 0 < length heap.old }
    ensures ordered { SiftsUp (flip_args T.order) heap.old (length heap.old - 1) heap.new }
    ensures bag { IsPermutation heap.old heap.new }
{
    let mut at = heap.len() - 1;
    while 0 < at && heap[at].comes_before(&heap[(at - 1) / 2]) {
        heap.swap((at - 1) / 2, at);
        at = (at - 1) / 2;
    }
}

/// The child of the entry at `at` that comes first.
fn first_child<T: Entry>(heap: &[T], at: usize) -> usize
    requires { at * 2 + 1 < length heap.now }
    ensures child { (at * 2 + 1 ≤ result) × (result ≤ at * 2 + 2) × (result < length heap.now) }
    ensures first { IsGreaterChild (flip_args T.order) heap.now at result (length heap.now) }
{
    let left = at * 2 + 1;
    let right = left + 1;
    if right == heap.len() {
        return left;
    }
    if heap[left].comes_before(&heap[right]) {
        left
    } else {
        right
    }
}

/// Moves the first entry down, until no child of it comes before it.
pub(crate) fn sift_down<T: Entry>(heap: &mut [T])
    ensures ordered { SiftsDown (flip_args T.order) heap.old 0 (length heap.old) heap.new }
    ensures bag { IsPermutation heap.old heap.new }
{
    let mut at = 0;
    while at < heap.len() / 2 {
        let child = first_child(heap, at);
        if !heap[child].comes_before(&heap[at]) {
            return;
        }
        heap.swap(at, child);
        at = child;
    }
}
