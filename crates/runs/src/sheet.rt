ghost use Rattle.std.specs.Prelude.{◌≡◌};
ghost use Rattle.runs.specs.Once.{ready_once};
ghost use Rattle.runs.specs.Ready.{Ready};

use crate::{Heading, Labels};
use network::Network;
use worklist::WorkList;

/// A sheet that is worked on. There is none whose parts do not belong together, or that is not well formed.
#[derive(Drop)]
pub struct Sheet<'a, N: Network, L: WorkList> {
    pub net: &'a N,
    pub heading: Heading,
    pub rows: &'a mut [u32],
    pub marks: &'a [u8],
    pub list: &'a mut L,
    ghost ready: { Ready (N.Network.means net.now) heading.figures rows.now } by { ready_once (N.Network.means net.now) heading.figures rows.now },
    ghost bound: { L.WorkList.bound list.now ≡ heading.figures.nodes },
}

impl<N: Network, L: WorkList> Sheet<'_, N, L> {
    /// Its labels.
    pub fn labels(&self) -> Labels<'_>
        ensures same_heading { result.heading ≡ self.now.heading }
        ensures same_rows { result.rows.now ≡ self.now.rows.now }
    {
        Labels::new(self.heading, self.rows)
    }
}
