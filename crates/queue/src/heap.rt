ghost use Rattle.std.specs.Prelude.{◌≡◌, ◌≤◌, ◌==◌, [], length, IfSome, MatchOption, MatchResult};
ghost use Rattle.std.specs.List.{ContainsAt};
ghost use Rattle.queue.specs.Orders.{First};
ghost use Rattle.queue.specs.Bags.{Sound, Gains, Refuses, Without, Loses, Lacks, room};
ghost use Rattle.std.proofs.Common.{rules};
ghost use Rattle.std.specs.Cmp.Rules.{comparing};
ghost use Rattle.std.specs.Ordering.{nat_cmp, on, flip_args};

use crate::Entry;
use crate::sift::{sift_down, sift_up};
use std::marker::Model;

/// A queue of entries in lent slots, the first by their order at the top of a heap.
// A slice with a length beside it, and no `BinaryHeap`: the memory is lent, and nothing is allocated here.
// No bound stands here, so that a type that holds a queue needs none. A model has the bounds of its struct, so this one cannot name
// the order; that the entries lie as a heap (`Sound`) is promised by `new` and `clear`, and by `push` and `pop` where it was so before.
#[derive(Debug, Drop)]
pub struct Queue<'a, T> {
    slots: &'a mut [T],
    len: usize,
}

impl<'a, T> Model for Queue<'a, T> {
    ghost use Rattle.std.specs.Prelude.{take, drop, length, ◌≤◌};
    ghost use Rattle.queue.specs.Bags.{Bag};

    ghost Value = { Bag T };

    ghost view = { λ q. record { entries = take q.len q.slots.now; spare = drop q.len q.slots.now; loan = q.slots.ghost_name } };

    ghost invariant = { λ q. q.len ≤ length q.slots.now };
}

impl<'a, T: Entry> Queue<'a, T> {
    /// An empty queue, whatever the slots hold.
    #[tactic(auto, using(crate::proofs::Heaps::nothing_held))]
    pub fn new(slots: &'a mut [T]) -> Queue<'a, T>
        ensures sound { Sound T.order result }
        ensures empty { result.entries ≡ [] }
        ensures room { room result ≡ length slots.old }
    {
        Queue { slots, len: 0 }
    }

    /// How many entries there are.
    pub fn len(&self) -> usize
        ensures count { result ≡ length self.now.entries }
        ensures within { result ≤ room self.now }
    {
        self.len
    }

    /// Whether there is no entry.
    pub fn is_empty(&self) -> bool
        ensures no_entry { result ≡ (length self.now.entries == 0) }
    {
        self.len == 0
    }

    /// The entry that comes first, which stays.
    pub fn peek(&self) -> Option<T>
        ensures held { IfSome result (λ x. ContainsAt self.now.entries x) }
        ensures first_or_none { MatchOption result (self.now.entries ≡ []) (λ x. Sound T.order self.now → First T.order x self.now.entries) }
    {
        self.slots[..self.len].first().copied()
    }

    /// Adds an entry; where every slot is taken, hands it back.
    pub fn push(&mut self, entry: T) -> Result<(), T>
        ensures sound { Sound T.order self.old → Sound T.order self.new }
        ensures room { room self.new ≡ room self.old }
        ensures gains_or_refuses { MatchResult result (λ _. Gains self.old entry self.new) (λ x. Refuses self.old entry x self.new) }
    {
        if self.len == self.slots.len() {
            return Err(entry);
        }
        self.slots[self.len] = entry;
        self.len += 1;
        sift_up(&mut self.slots[..self.len]);
        Ok(())
    }

    /// Takes out the entry that comes first.
    pub fn pop(&mut self) -> Option<T>
        ensures sound { Sound T.order self.old → Sound T.order self.new }
        ensures room { room self.new ≡ room self.old }
        ensures taken_out { IfSome result (λ x. Without self.old x self.new) }
        ensures loses_or_lacks { MatchOption result (Lacks self.old self.new) (λ x. Sound T.order self.old → Loses T.order self.old x self.new) }
    {
        let last = self.len.checked_sub(1)?;
        let first = self.slots[0];
        self.slots[0] = self.slots[last];
        self.len = last;
        sift_down(&mut self.slots[..self.len]);
        Some(first)
    }

    /// Takes out every entry.
    #[tactic(auto, using(crate::proofs::Heaps::nothing_held))]
    pub fn clear(&mut self)
        ensures sound { Sound T.order self.new }
        ensures room { room self.new ≡ room self.old }
        ensures empty { self.new.entries ≡ [] }
    {
        self.len = 0;
    }
}

#[cfg(test)]
mod tests {
    use super::*;

    #[derive(Clone, Copy, PartialEq, Eq, PartialOrd, Ord, Debug)]
    struct Height(u32);

    impl Entry for Height {
        ghost order = { on (λ h. h.0) nat_cmp };

        ghost total = { Prim.search (comparing, rules) };

        ghost same = { Prim.search rules };

        fn comes_before(&self, other: &Height) -> bool {
            self < other
        }
    }

    /// The highest comes out first, by an order apart from `Ord`.
    #[derive(Clone, Copy, PartialEq, Eq, PartialOrd, Ord, Debug)]
    struct Depth(u32);

    impl Entry for Depth {
        ghost order = { flip_args (on (λ d. d.0) nat_cmp) };

        ghost total = { Prim.search (comparing, rules) };

        ghost same = { Prim.search rules };

        fn comes_before(&self, other: &Depth) -> bool {
            other < self
        }
    }

    /// A type that holds a queue and asks nothing of what is queued.
    #[derive(Drop)]
    struct Holding<'a, T> {
        queue: Queue<'a, T>,
    }

    impl<T> Holding<'_, T> {
        /// There are no more entries than there is room for.
        fn fits(&self)
            ensures within { length self.now.queue.entries ≤ room self.now.queue }
        {}
    }

    impl<T: Entry> Holding<'_, T> {
        /// Adds an entry, and says whether there was room for it.
        fn add(&mut self, entry: T) -> bool
            ensures sound { Sound T.order self.old.queue → Sound T.order self.new.queue }
            ensures room { room self.new.queue ≡ room self.old.queue }
        {
            self.queue.push(entry).is_ok()
        }
    }

    #[test]
    fn held_without_a_bound(rt: HostRuntime) {
        let mut slots = [Height(0); 1];
        let mut holding = Holding {
            queue: Queue::new(&mut slots),
        };
        assert!(rt; holding.add(Height(4)));
        assert!(rt; !holding.add(Height(3)));
        holding.fits();
        assert_eq!(rt; holding.queue.peek(), Some(Height(4)));
    }

    #[test]
    fn lowest_first_and_full(rt: HostRuntime) {
        let mut slots = [Height(9); 3];
        let mut queue = Queue::new(&mut slots);
        assert_eq!(rt; queue.push(Height(5)), Ok(()));
        assert_eq!(rt; queue.push(Height(2)), Ok(()));
        assert_eq!(rt; queue.push(Height(7)), Ok(()));
        assert_eq!(rt; queue.push(Height(1)), Err(Height(1)));
        assert_eq!(rt; queue.peek(), Some(Height(2)));
        assert_eq!(rt; queue.pop(), Some(Height(2)));
        assert_eq!(rt; queue.pop(), Some(Height(5)));
        assert_eq!(rt; queue.len(), 1);
        queue.clear();
        assert_eq!(rt; queue.pop(), None);
    }

    #[test]
    fn order_apart_from_ord(rt: HostRuntime) {
        let mut slots = [Depth(0); 3];
        let mut queue = Queue::new(&mut slots);
        assert_eq!(rt; queue.push(Depth(5)), Ok(()));
        assert_eq!(rt; queue.push(Depth(7)), Ok(()));
        assert_eq!(rt; queue.push(Depth(2)), Ok(()));
        assert_eq!(rt; queue.pop(), Some(Depth(7)));
        assert_eq!(rt; queue.pop(), Some(Depth(5)));
        assert_eq!(rt; queue.pop(), Some(Depth(2)));
    }
}
