ghost use Rattle.std.specs.Prelude.{◌≡◌, ℕ, ◌<◌, ◌≤◌, true, false, not, length, MatchResult, slice_index_or};
ghost use Rattle.refusal.specs.declared.Refusal.TheVariants.{Range};

use crate::MOST_NODES;
use refusal::Refusal;

/// As many places as there can be nodes.
pub(crate) const PLACES: usize = MOST_NODES as usize;

/// A set of nodes below a bound of 1 to 1,024.
// A mark for each node, and no `HashSet`: a work list allocates nothing.
#[derive(Debug, Drop)]
pub struct NodeSet {
    bound: u32,
    marks: [bool; PLACES],
    pub ghost in_range: { (1 ≤ bound) × (bound ≤ 1024) },
    pub ghost long: { length marks ≡ 1024 },
    pub ghost below: { (v : ℕ) → slice_index_or marks v false ≡ true → v < bound },
}

impl NodeSet {
    ghost use Rattle.worklist.specs.Work.{Refused};
    ghost use Rattle.worklist.specs.NodeSets.{bound_of, has, IsEmpty, SetsMark};

    /// The empty set of nodes below the bound.
    pub fn new(bound: u32) -> NodeSet
        requires { (1 ≤ bound) × (bound ≤ 1024) }
        ensures bound_set { bound_of result ≡ bound }
        ensures empty { IsEmpty result }
    {
        NodeSet {
            bound,
            marks: [false; PLACES],
        }
    }

    /// The same, for any number; refuses a bound that is not 1 to 1,024.
    pub fn try_new(bound: u32) -> Result<NodeSet, Refusal>
        ensures makes_or_refuses { MatchResult result (λ s. (1 ≤ bound) × (bound ≤ 1024) × (bound_of s ≡ bound) × IsEmpty s) (λ e. (e ≡ Range) × (1 ≤ bound → 1024 < bound)) }
    {
        if !(1..=MOST_NODES).contains(&bound) {
            return Err(Refusal::Range);
        }
        Ok(NodeSet::new(bound))
    }

    /// The bound.
    pub fn bound(&self) -> u32
        ensures bound_is { result ≡ bound_of self.now }
    {
        self.bound
    }

    /// Adds a node, and says whether it is new; refuses one that is not below the bound.
    pub fn insert(&mut self, node: u32) -> Result<bool, Refusal>
        ensures adds_or_refuses { MatchResult result (λ new. (node < bound_of self.old) × (has self.old node ≡ not new) × SetsMark self.old node true self.new) (λ e. Refused (bound_of self.old ≤ node) self.old e self.new) }
    {
        if node >= self.bound {
            return Err(Refusal::Range);
        }
        let new = !self.marks[node as usize];
        self.marks[node as usize] = true;
        Ok(new)
    }

    /// Takes out a node.
    pub fn remove(&mut self, node: u32)
        requires { node < bound_of self.old }
        ensures taken_out { SetsMark self.old node false self.new }
    {
        self.marks[node as usize] = false;
    }
}
