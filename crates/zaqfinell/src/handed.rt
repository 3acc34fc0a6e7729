ghost use Rattle.network.specs.Checked.{Checked, from_bytes};
ghost use Rattle.network.specs.Found.{Finds};
ghost use Rattle.network_list.specs.Given.{from_arcs};

use network::{Arc, Network};
use refusal::Reason;

// A network as a caller hands it over.
pub trait Handed {
    // what its check finds
    ghost checked: { Self → Checked };

    fn check(self) -> Result<Network, Reason>
        ensures { Finds (checked self) result };
}

// As bytes.
impl<'a> Handed for &'a [u8] {
    ghost checked = { λ net. from_bytes net.now };

    fn check(self) -> Result<Network, Reason> {
        network_bytes::check(self)
    }
}

// As n, LMAX and a lent list of arcs.
#[derive(Clone, Copy)]
pub struct ArcList<'a> {
    pub n: u8,
    pub lmax: u8,
    pub arcs: &'a [Arc],
}

impl<'a> Handed for ArcList<'a> {
    ghost checked = { λ net. from_arcs net.n net.lmax net.arcs.now };

    fn check(self) -> Result<Network, Reason> {
        network_list::check(self.n, self.lmax, self.arcs)
    }
}
