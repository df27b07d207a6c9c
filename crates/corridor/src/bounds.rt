//! The two curves between which a label is made.

ghost use Rattle.std.specs.Prelude.{◌≡◌};
ghost use Rattle.corridor.specs.Curves.{Curves};

/// The lower and the upper curve, each with a height for each minute.
#[derive(Clone, Copy, PartialEq, Eq, Debug)]
pub struct Bounds<'c> {
    pub lo: &'c [u32],
    pub up: &'c [u32],
    pub ghost curves: { Curves lo.now up.now },
}

impl<'c> Bounds<'c> {
    /// The curves as bounds of a label.
    pub fn new(lo: &'c [u32], up: &'c [u32]) -> Bounds<'c>
        requires curves { Curves lo.now up.now }
        ensures lower { result.lo.now ≡ lo.now }
        ensures upper { result.up.now ≡ up.now }
    {
        Bounds { lo, up }
    }
}
