ghost use Rattle.keyed.specs.Order.{node_cmp};
ghost use Rattle.std.proofs.Common.{rules};
ghost use Rattle.std.specs.Cmp.Rules.{comparing};

use queue::Entry;

/// A waiting node with its key. In order: the smallest key first, the lower node on a tie.
#[derive(Clone, Copy, PartialEq, Eq, PartialOrd, Ord, Debug, Default)]
pub struct KeyedNode {
    pub key: u32,
    pub node: u32,
}

impl Entry for KeyedNode {
    ghost order = { node_cmp };

    ghost total = { Prim.search (comparing, rules) };

    ghost same = { Prim.search rules };

    fn comes_before(&self, other: &KeyedNode) -> bool {
        self < other
    }
}
