ghost use Rattle.std.specs.Prelude.{◌≡◌, ℕ, ◌<◌, [], length};
ghost use Rattle.worklist.specs.NodeSets.{size, EachOnce};
ghost use Rattle.worklist.specs.Lines.{times, around};

use crate::nodes::PLACES;
use crate::{NodeSet, WorkList};
use refusal::Refusal;

/// A work list that takes the node that has waited longest; each call but a clear takes constant time.
// A ring in fixed memory, and no `VecDeque`: a work list allocates nothing.
#[derive(Debug, Drop)]
pub struct Fifo {
    /// The waiting nodes.
    nodes: NodeSet,
    /// The place of the oldest.
    first: usize,
    /// How many wait.
    count: usize,
    /// The waiting nodes, from the oldest on; the place after the last is the first.
    ring: [u32; PLACES],
    ghost sizes: { (first < 1024) × (length ring ≡ 1024) },
    ghost tally: { size nodes ≡ count },
    ghost once: { EachOnce nodes (λ v. times v (around ring first count)) },
}

impl Fifo {
    ghost use Rattle.worklist.specs.NodeSets.{bound_of, IsEmpty};
    ghost use Rattle.worklist.specs.Fifos.{limit, waiting};

    /// A list of bound 1, with nothing waiting.
    pub fn new() -> Fifo
        ensures bound_one { limit result ≡ 1 }
        ensures nothing_waits { waiting result ≡ [] }
    {
        Fifo::idle(NodeSet::new(1))
    }

    /// A list with nothing waiting, of the bound of the empty set given.
    fn idle(nodes: NodeSet) -> Fifo
        requires { IsEmpty nodes }
        ensures bound_set { limit result ≡ bound_of nodes }
        ensures nothing_waits { waiting result ≡ [] }
    {
        Fifo {
            nodes,
            first: 0,
            count: 0,
            ring: [0; PLACES],
        }
    }
}

impl Default for Fifo {
    ghost use Rattle.worklist.specs.Fifos.{limit, waiting};

    ghost is_default = { λ l. (limit l ≡ 1) × (waiting l ≡ []) };

    fn default() -> Fifo {
        Fifo::new()
    }
}

impl WorkList for Fifo {
    ghost use Rattle.worklist.specs.Fifos.{limit, fifo_work, fifo_orderly, below_bound, in_range, put_bound, take_bound, clear_bound};

    ghost bound = { limit };

    ghost work = { fifo_work };

    fn bound(&self) -> u32 {
        self.nodes.bound()
    }

    fn is_empty(&self) -> bool {
        self.count == 0
    }

    fn put(&mut self, node: u32, _key: u32) -> Result<(), Refusal> {
        if self.nodes.insert(node)? {
            self.ring[(self.first + self.count) % PLACES] = node;
            self.count += 1;
        }
        Ok(())
    }

    fn take(&mut self) -> Option<u32> {
        let rest = self.count.checked_sub(1)?;
        let node = self.ring[self.first];
        self.nodes.remove(node);
        self.first = (self.first + 1) % PLACES;
        self.count = rest;
        Some(node)
    }

    fn clear(&mut self, nodes: u32) -> Result<(), Refusal> {
        *self = Fifo::idle(NodeSet::try_new(nodes)?);
        Ok(())
    }

    ghost orderly = { fifo_orderly };

    ghost inside = { below_bound };

    ghost limits = { in_range };

    ghost putting = { put_bound };

    ghost taking = { take_bound };

    ghost clearing = { clear_bound };
}

#[cfg(test)]
mod tests {
    use super::*;
    use std::test::Fail;

    #[test]
    fn oldest_first(rt: HostRuntime) -> Result<(), Fail> {
        let mut list = Fifo::new();
        list.clear(5)?;
        list.put(4, 0)?;
        list.put(2, 9)?;
        list.put(4, 1)?;
        assert_eq!(rt; list.take(), Some(4));
        list.put(4, 0)?;
        assert_eq!(rt; list.take(), Some(2));
        assert_eq!(rt; list.take(), Some(4));
        assert_eq!(rt; list.take(), None);
        Ok(())
    }

    #[test]
    fn refuses_what_is_out_of_range(rt: HostRuntime) -> Result<(), Fail> {
        let mut list = Fifo::new();
        list.put(0, 0)?;
        assert_eq!(rt; list.put(1, 0), Err(Refusal::Range));
        assert_eq!(rt; list.clear(0), Err(Refusal::Range));
        assert_eq!(rt; list.clear(1025), Err(Refusal::Range));
        assert!(rt; !list.is_empty() && list.bound() == 1);
        list.clear(1024)?;
        assert!(rt; list.is_empty() && list.bound() == 1024);
        Ok(())
    }
}
