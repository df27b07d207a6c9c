//! What calls on a sheet do, as relations over what a network and a work list mean, and the types they speak of.

#![tactic(auto)]

mod asks;
mod heading;
mod labels;
mod roads;
mod sheet;
mod sizes;
mod writes;

pub use heading::Heading;
pub use labels::{DEPARTURES, Labels};
pub use roads::RoadOf;
pub use sheet::Sheet;

/// A sheet's figures: how many nodes and roads, the last departure, how many points a row has places for, the
/// allowance in ten-thousandths of a road's least time, and the origin, if any.
#[derive(Clone, Copy, PartialEq, Eq, Debug)]
pub struct Figures {
    pub nodes: u32,
    pub roads: u32,
    pub window: u32,
    pub places: u32,
    pub allowance: u32,
    pub origin: Option<u32>,
}

/// How work ended.
#[derive(Clone, Copy, PartialEq, Eq, Debug)]
pub enum Outcome {
    /// The label that this road asks for has more points than a row has places for.
    Full(u32),
    /// Nothing waits.
    Settled,
    /// All turns that were asked for are done, and some node waits.
    More,
}
