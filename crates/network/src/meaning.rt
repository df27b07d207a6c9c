//! What a network answers, by what it means.

ghost use Rattle.std.specs.Prelude.{◌≡◌};
ghost use Rattle.network.specs.Net.{Lawful, Net, crossing, told};

/// The most nodes that a network has.
pub const MOST_NODES: u32 = 1_024;

/// The most roads that a network has.
pub const MOST_ROADS: u32 = 4_096;

/// The last minute at which a road's crossing may be asked.
pub const LAST_MINUTE: u32 = 20_461_440;

/// A network of 1 to 1,024 nodes and at most 4,096 roads. Every kind of network owes the law that it is a
/// lawful one, so that code over any network may use it. Questions alter nothing.
pub trait Network {
    ghost means: { Self → Net };

    // Above the functions, where a clause and a caller of a trait object can use it too.
    ghost lawful: { (s : Self) → Lawful (means s) };

    /// How many nodes there are.
    fn nodes(&self) -> u32
        ensures nodes_as_meant { result ≡ (means self.now).nodes };

    /// How many roads there are.
    fn roads(&self) -> u32
        ensures roads_as_meant { result ≡ (means self.now).roads };

    /// The node at which the road `r` begins; none exactly where there is no such road.
    fn tail(&self, r: u32) -> Option<u32>
        ensures tail_as_meant { result ≡ told (means self.now) (means self.now).tail r };

    /// The node at which the road `r` ends; none exactly where there is no such road.
    fn head(&self, r: u32) -> Option<u32>
        ensures head_as_meant { result ≡ told (means self.now) (means self.now).head r };

    /// A time than which no crossing of the road `r` is quicker; none exactly where there is no such road.
    fn least(&self, r: u32) -> Option<u32>
        ensures least_as_meant { result ≡ told (means self.now) (means self.now).least r };

    /// The arrival of whoever enters the road `r` at minute `x`; none exactly where there is no such road
    /// or `x` is over 20,461,440.
    fn cross(&self, r: u32, x: u32) -> Option<u32>
        ensures cross_as_meant { result ≡ crossing (means self.now) r x };
}
