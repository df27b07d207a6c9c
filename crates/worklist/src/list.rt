ghost use Rattle.std.specs.Prelude.{◌≡◌, ℕ, ◌<◌, ◌≤◌, Bool, true, false, MatchBool, Option as OptionT, MatchResult};
ghost use Rattle.worklist.specs.Work.{Work, Orderly, Idle, Refused, Sets};

use refusal::Refusal;

/// The largest bound of a work list.
// `network` has the same number as its own bound: a work list is of use without a network, and asks for none.
pub const MOST_NODES: u32 = 1024;

/// A work list means a bound and a set of waiting nodes below it. The order in which they are taken is each list's own.
pub trait WorkList {
    ghost bound: { Self → ℕ };

    /// Which nodes wait, and what each call does; each list names its own order here.
    ghost work: { Work Self };

    /// The bound.
    fn bound(&self) -> u32
        ensures bound_is { result ≡ bound self.now };

    /// Whether no node waits.
    fn is_empty(&self) -> bool
        ensures none_waits_or_some { MatchBool result (Idle work self.now) (Idle work self.now → ⊥) };

    /// Adds a node, with its key; one that waits already keeps its first key. Refuses a node that is not below the bound.
    fn put(&mut self, node: u32, key: u32) -> Result<(), Refusal>
        ensures puts_or_refuses { MatchResult result (λ _. (node < bound self.old) × work.puts self.old node key self.new) (λ e. Refused (bound self.old ≤ node) self.old e self.new) };

    /// Removes a waiting node and names it; none exactly if none waits.
    fn take(&mut self) -> Option<u32>
        ensures takes { work.takes self.old result self.new };

    /// Sets the bound and removes every node. Refuses a bound that is not 1 to 1,024.
    fn clear(&mut self, nodes: u32) -> Result<(), Refusal>
        ensures clears_or_refuses { MatchResult result (λ _. (1 ≤ nodes) × (nodes ≤ 1024) × work.clears self.old nodes self.new) (λ e. Refused (1 ≤ nodes → 1024 < nodes) self.old e self.new) };

    /// The laws that hold whatever the order.
    ghost orderly: { Orderly work };

    /// Waiting nodes lie below the bound.
    ghost inside: { (l : Self) (v : ℕ) → work.waits l v ≡ true → v < bound l };

    /// The bound is 1 to 1,024.
    ghost limits: { (l : Self) → (1 ≤ bound l) × (bound l ≤ 1024) };

    /// Puts and takes keep the bound, and a clear sets it.
    ghost putting: { (l m : Self) (v key : ℕ) → work.puts l v key m → bound m ≡ bound l };

    ghost taking: { (l m : Self) (a : OptionT ℕ) → work.takes l a m → bound m ≡ bound l };

    ghost clearing: { (l m : Self) (n : ℕ) → work.clears l n m → bound m ≡ n };
}

/// What follows from the laws of every list, on its set of waiting nodes.
pub fn set_laws_stand<L: WorkList>(_list: &L)
    ensures laws_of_the_set { Sets L.work }
{}
