ghost use Rattle.std.specs.Prelude.{◌≡◌, true};
ghost use Rattle.runs.specs.Figured.{right};

use crate::Figures;

/// What heads a sheet. There is none whose figures are out of range, or whose origin is not one of its nodes.
#[derive(Clone, Copy, PartialEq, Eq, Debug)]
pub struct Heading {
    figures: Figures,
    ghost lawful: { right figures ≡ true },
}

impl Heading {
    /// Heads a sheet with figures that it may have.
    pub fn new(figures: Figures) -> Heading
        requires { right figures ≡ true }
        ensures figures_as_given { result.figures ≡ figures }
    {
        Heading { figures }
    }

    /// All figures.
    pub fn figures(&self) -> Figures
        ensures figures_held { result ≡ self.now.figures }
    {
        self.figures
    }
}
