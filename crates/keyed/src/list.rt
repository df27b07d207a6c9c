ghost use Rattle.std.specs.Prelude.{◌≡◌, ℕ, ◌<◌, ◌≤◌, [], length, MatchResult};
ghost use Rattle.refusal.specs.declared.Refusal.TheVariants.{Short};
ghost use Rattle.worklist.specs.NodeSets.{size, EachOnce};
ghost use Rattle.queue.specs.Bags.{Sound, room, sound_once};
ghost use Rattle.keyed.specs.Order.{node_cmp, times};

use crate::KeyedNode;
use queue::Queue;
use refusal::Refusal;
use worklist::{MOST_NODES, NodeSet, WorkList};

/// A work list that takes the node with the smallest key, the lower node on a tie.
/// Its queue stands in lent slots, each entry a waiting node with the key that it was first put with.
#[derive(Debug, Drop)]
pub struct Keyed<'a> {
    /// The waiting nodes.
    nodes: NodeSet,
    queue: Queue<'a, KeyedNode>,
    ghost sound: { Sound node_cmp queue } by { sound_once node_cmp queue },
    ghost space: { 1024 ≤ room queue },
    ghost tally: { size nodes ≡ length queue.entries },
    ghost once: { EachOnce nodes (λ v. times v queue.entries) },
}

impl<'a> Keyed<'a> {
    ghost use Rattle.keyed.specs.Lists.{limit, entries};

    /// A list of bound 1, with nothing waiting; refuses fewer than 1,024 slots.
    pub fn new(slots: &'a mut [KeyedNode]) -> Result<Keyed<'a>, Refusal>
        ensures makes_or_refuses { MatchResult result (λ l. (1024 ≤ length slots.old) × (limit l ≡ 1) × (entries l ≡ [])) (λ e. (e ≡ Short) × (length slots.old < 1024)) }
    {
        if slots.len() < MOST_NODES as usize {
            return Err(Refusal::Short);
        }
        Ok(Keyed {
            nodes: NodeSet::new(1),
            queue: Queue::new(slots),
        })
    }
}

impl<'a> WorkList for Keyed<'a> {
    ghost use Rattle.keyed.specs.Lists.{limit, keyed_work, keyed_orderly, below_bound, in_range, put_bound, take_bound, clear_bound};

    ghost bound = { limit };

    ghost work = { keyed_work };

    fn bound(&self) -> u32 {
        self.nodes.bound()
    }

    fn is_empty(&self) -> bool {
        self.queue.is_empty()
    }

    fn put(&mut self, node: u32, key: u32) -> Result<(), Refusal> {
        if self.nodes.insert(node)? {
            // No node waits twice, so there is a slot for each.
            let Ok(()) = self.queue.push(KeyedNode { key, node }) else {
                unreachable()
            };
        }
        Ok(())
    }

    fn take(&mut self) -> Option<u32> {
        let first = self.queue.pop()?;
        self.nodes.remove(first.node);
        Some(first.node)
    }

    fn clear(&mut self, nodes: u32) -> Result<(), Refusal> {
        self.nodes = NodeSet::try_new(nodes)?;
        self.queue.clear();
        Ok(())
    }

    ghost orderly = { keyed_orderly };

    ghost inside = { below_bound };

    ghost limits = { in_range };

    ghost putting = { put_bound };

    ghost taking = { take_bound };

    ghost clearing = { clear_bound };
}

#[cfg(test)]
mod tests {
    use super::*;
    use std::test::Fail;

    #[test]
    fn smallest_key_first(rt: HostRuntime) -> Result<(), Fail> {
        let mut slots = [KeyedNode::default(); 1024];
        let mut list = Keyed::new(&mut slots)?;
        list.clear(9)?;
        list.put(7, 30)?;
        list.put(3, 20)?;
        list.put(2, 30)?;
        list.put(7, 10)?;
        assert_eq!(rt; list.take(), Some(3));
        assert_eq!(rt; list.take(), Some(2));
        assert_eq!(rt; list.take(), Some(7));
        assert_eq!(rt; list.take(), None);
        Ok(())
    }

    #[test]
    fn refuses_too_few_slots(rt: HostRuntime) -> Result<(), Fail> {
        let mut slots = [KeyedNode::default(); 1023];
        match Keyed::new(&mut slots) {
            Ok(_) => Err(Fail::new("too few slots")),
            Err(e) => {
                assert_eq!(rt; e, Refusal::Short);
                Ok(())
            },
        }
    }
}
