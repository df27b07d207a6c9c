//! A network that is lent is a network.

use super::meaning::Network;

impl<N: Network> Network for &N {
    ghost means = { λ s. N.Network.means s.now };

    ghost lawful = { λ s. N.Network.lawful s.now };

    fn nodes(&self) -> u32 {
        (**self).nodes()
    }

    fn roads(&self) -> u32 {
        (**self).roads()
    }

    fn tail(&self, r: u32) -> Option<u32> {
        (**self).tail(r)
    }

    fn head(&self, r: u32) -> Option<u32> {
        (**self).head(r)
    }

    fn least(&self, r: u32) -> Option<u32> {
        (**self).least(r)
    }

    fn cross(&self, r: u32, x: u32) -> Option<u32> {
        (**self).cross(r, x)
    }
}
