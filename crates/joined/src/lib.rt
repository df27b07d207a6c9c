//! Two networks as one.

#![tactic(auto)]

ghost use Rattle.joined.specs.Joining.{added, join, join_fault, place};
ghost use Rattle.joined.specs.Joins.{JoinLaws, join_lawful};
ghost use Rattle.refusal.specs.Refusals.{refusal};
ghost use Rattle.std.specs.Prelude.{◌≡◌, IfOk};

use network::{MOST_ROADS, Network};
use refusal::{Line, Refusal};

/// Where a road of a join comes from: the part that has it, and its number there.
#[derive(Clone, Copy, PartialEq, Eq, Debug)]
enum Place {
    First(u32),
    Second(u32),
}

/// The roads of one network, then those of another with the same nodes.
// The type does not say that the parts fit: it would need a bound on each of them, and so would every type that keeps a
// join. So each question tests it.
#[derive(Drop)]
pub struct Joined<P, Q> {
    first: P,
    second: Q,
}

impl<P: Network + Drop, Q: Network + Drop> Joined<P, Q> {
    /// Joins two networks; refused where their nodes differ, else where they have too many roads.
    pub fn new(first: P, second: Q) -> Result<Joined<P, Q>, Refusal>
        ensures refused_if_unfit { refusal result ≡ join_fault (P.Network.means first) (Q.Network.means second) }
        ensures holds_both { IfOk result (λ j. (j.first ≡ first) × (j.second ≡ second)) }
    {
        if first.nodes() != second.nodes() {
            return Err(Refusal::Table(None));
        }
        if first.roads() + second.roads() > MOST_ROADS {
            return Err(Refusal::Quota(Line::default()));
        }
        Ok(Joined { first, second })
    }
}

impl<P: Network, Q: Network> Joined<P, Q> {
    /// The roads that the second adds: all of them, and none where the two may not be joined.
    fn added_roads(&self) -> u32
        ensures as_joined { result ≡ added (P.Network.means self.now.first) (Q.Network.means self.now.second) }
    {
        if self.first.nodes() == self.second.nodes()
            && self.first.roads() + self.second.roads() <= MOST_ROADS
        {
            self.second.roads()
        } else {
            0
        }
    }

    /// Where the road `r` comes from; none exactly where there is no such road.
    fn place(&self, r: u32) -> Option<Place>
        ensures as_joined { result ≡ place (P.Network.means self.now.first) (Q.Network.means self.now.second) r }
    {
        let m = self.first.roads();
        if r < m {
            Some(Place::First(r))
        } else if r - m < self.added_roads() {
            Some(Place::Second(r - m))
        } else {
            None
        }
    }
}

impl<P: Network, Q: Network> Network for Joined<P, Q> {
    ghost means = { λ s. join (P.Network.means s.first) (Q.Network.means s.second) };

    ghost lawful = { λ s. join_lawful _ _ (P.Network.lawful s.first) (Q.Network.lawful s.second) };

    fn nodes(&self) -> u32 {
        self.first.nodes()
    }

    fn roads(&self) -> u32 {
        self.first.roads() + self.added_roads()
    }

    // One function that takes a closure for each part is no plainer: its contract speaks of the calls of both
    // closures, and each question is still written twice.
    fn tail(&self, r: u32) -> Option<u32> {
        match self.place(r)? {
            Place::First(k) => self.first.tail(k),
            Place::Second(k) => self.second.tail(k),
        }
    }

    fn head(&self, r: u32) -> Option<u32> {
        match self.place(r)? {
            Place::First(k) => self.first.head(k),
            Place::Second(k) => self.second.head(k),
        }
    }

    fn least(&self, r: u32) -> Option<u32> {
        match self.place(r)? {
            Place::First(k) => self.first.least(k),
            Place::Second(k) => self.second.least(k),
        }
    }

    fn cross(&self, r: u32, x: u32) -> Option<u32> {
        match self.place(r)? {
            Place::First(k) => self.first.cross(k, x),
            Place::Second(k) => self.second.cross(k, x),
        }
    }
}

/// A join has the roads of the first, then those of the second, and a join of lawful networks is lawful.
#[tactic(auto, using(crate::specs::Joins::join_laws))]
pub fn joins_stand()
    ensures join_laws { JoinLaws }
{}

#[cfg(test)]
mod tests;
