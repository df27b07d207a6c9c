ghost use Rattle.std.specs.Prelude.{◌≡◌, ◌<◌};
ghost use Rattle.runs.specs.Figured.{with_origin};

use crate::{Figures, Heading};

impl Heading {
    /// How many nodes the sheet has rows for.
    pub fn nodes(&self) -> u32
        ensures nodes_held { result ≡ self.now.figures.nodes }
    {
        self.figures().nodes
    }

    /// How many roads the sheet has marks for.
    pub fn roads(&self) -> u32
        ensures roads_held { result ≡ self.now.figures.roads }
    {
        self.figures().roads
    }

    /// The last departure.
    pub fn window(&self) -> u32
        ensures window_held { result ≡ self.now.figures.window }
    {
        self.figures().window
    }

    /// How many points a row has places for.
    pub fn places(&self) -> u32
        ensures places_held { result ≡ self.now.figures.places }
    {
        self.figures().places
    }

    /// How late a label may be over a road, in ten-thousandths of the road's least time.
    pub fn allowance(&self) -> u32
        ensures allowance_held { result ≡ self.now.figures.allowance }
    {
        self.figures().allowance
    }

    /// The origin, if there is one.
    pub fn origin(&self) -> Option<u32>
        ensures origin_held { result ≡ self.now.figures.origin }
    {
        self.figures().origin
    }

    /// Makes a node the origin, and leaves the other figures.
    pub fn set_origin(&mut self, node: u32)
        requires { node < self.old.figures.nodes }
        ensures origin_set { self.new.figures ≡ with_origin self.old.figures node }
    {
        *self = Heading::new(Figures {
            origin: Some(node),
            ..self.figures()
        });
    }
}
