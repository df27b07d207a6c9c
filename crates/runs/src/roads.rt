ghost use Rattle.std.specs.Prelude.{◌≡◌, ◌<◌, ◌≤◌};
ghost use Rattle.network.specs.Net.{Net};
ghost use Rattle.runs.specs.Sheet.{allow};

use crate::Heading;
use network::Network;

/// A road of a network.
#[derive(Drop)]
pub struct RoadOf<'n, N: Network> {
    pub net: &'n N,
    pub road: u32,
    ghost is_one: { road < (N.Network.means net.now).roads },
}

// The two ends of a road are two questions to a network, and `tail` and `head` are one line over one of them each.

impl<N: Network> RoadOf<'_, N> {
    /// The node at which it begins.
    pub fn tail(&self) -> u32
        ensures tail_is { result ≡ (N.Network.means self.now.net.now).tail self.now.road }
    {
        self.net.tail(self.road).unwrap()
    }

    /// The node at which it ends.
    pub fn head(&self) -> u32
        ensures head_is { result ≡ (N.Network.means self.now.net.now).head self.now.road }
    {
        self.net.head(self.road).unwrap()
    }

    /// The arrival at its head of who is at its tail at `arrival`.
    pub fn cross(&self, arrival: u32) -> u32
        requires asked { arrival ≤ 20461440 }
        ensures cross_is { result ≡ (N.Network.means self.now.net.now).cross self.now.road arrival }
    {
        self.net.cross(self.road, arrival).unwrap()
    }

    /// The minutes by which a label may be late over it.
    pub fn allowance(&self, heading: Heading) -> u32
        ensures allowance_is { result ≡ allow (N.Network.means self.now.net.now) heading.figures self.now.road }
    {
        heading.allowance() * self.net.least(self.road).unwrap() / 10_000
    }
}
