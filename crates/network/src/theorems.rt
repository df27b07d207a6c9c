//! What holds of every network, as contracts.

ghost use Rattle.network.specs.Net.{Lawful};
ghost use Rattle.network.specs.Routes.{KeepsOrder, KeepsPace};
ghost use Rattle.network.specs.Tabled.{TablesLaws};

use super::meaning::Network;

/// Every network keeps the laws.
pub fn laws_stand<N: Network>(net: &N)
    ensures lawful { Lawful (N.Network.means net.now) }
{}

/// In every network, whoever sets out later on a route is not at its end earlier, and each road of it
/// takes 1 to 10,000 minutes.
#[tactic(auto, using(crate::proofs::Routing::keeps_order, crate::proofs::Routing::keeps_pace))]
pub fn routes_stand<N: Network>(net: &N)
    ensures no_overtaking_along_routes { KeepsOrder (N.Network.means net.now) }
    ensures minutes_within_bounds { KeepsPace (N.Network.means net.now) }
{}

/// Tables are refused at the lowest road that breaks its rule; those accepted mean a lawful network, each
/// of whose roads has a crossing that takes exactly its least.
#[tactic(auto, using(crate::specs::Tabled::tables_laws))]
pub fn tables_stand()
    ensures tables_laws { TablesLaws }
{}
