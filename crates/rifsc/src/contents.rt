#![tactic(auto, unfolding(crate::specs::Contents::reset))]

ghost use Rattle.std.specs.Prelude.{◌≡◌};
ghost use Rattle.rifsc.specs.Contents.{reset};

use crate::masters::MASTERS;
use words::BIT_WORDS;

// The controller's registers as stored, whole words.
#[derive(Clone, Copy)]
pub struct Rifsc {
    pub cr: u32,
    pub seccfgr: [u32; BIT_WORDS],
    pub privcfgr: [u32; BIT_WORDS],
    pub rcfglockr: [u32; BIT_WORDS],
    pub rimccr: u32,
    pub attr: [u32; MASTERS],
}

// RIMC_CR at reset.
const RIMC_RESET: u32 = 0x0000_0710;

impl Rifsc {
    pub fn reset() -> Self
        ensures { result ≡ reset }
    {
        Rifsc {
            cr: 0,
            seccfgr: [0; BIT_WORDS],
            privcfgr: [0; BIT_WORDS],
            rcfglockr: [0; BIT_WORDS],
            rimccr: RIMC_RESET,
            attr: [0; MASTERS],
        }
    }
}
