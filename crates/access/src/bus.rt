ghost use Rattle.std.specs.Prelude.{◌≡◌};
ghost use Rattle.access.specs.Bus.{heard, heard_cid};

use crate::{Cid, Kind};

// The bus that a guard stands on. An access on AHB carries no CID.
#[derive(Clone, Copy)]
pub enum Bus {
    Axi,
    Ahb,
}

// What stands for the CID that AHB does not carry.
const NO_CID: Cid = Cid(0);

impl Bus {
    // The compartment that an access is heard with.
    fn hears_cid(self, cid: Cid) -> Cid
        ensures { result ≡ heard_cid self cid }
    {
        match self {
            Bus::Axi => cid,
            Bus::Ahb => NO_CID,
        }
    }

    // A kind of asking as the guard hears it.
    pub fn hears(self, k: Kind) -> Kind
        ensures { result ≡ heard self k }
    {
        let cid = self.hears_cid(k.cid);
        Kind { cid, ..k }
    }
}
