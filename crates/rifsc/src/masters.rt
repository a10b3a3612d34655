#![tactic(auto, unfolding(crate::specs::Masters::is_master, crate::specs::Masters::guarding_of, crate::specs::Masters::carried))]

ghost use Rattle.std.specs.Prelude.{◌≡◌};
ghost use Rattle.rifsc.specs.Masters.{carried, guarding_of, is_master};

use crate::peripherals::PeripheralNumber;
use access::{Cid, Kind};

// A master's number; never a compartment's number, which is what a master carries.
#[derive(Clone, Copy)]
pub struct MasterNumber(pub u32);

// How many masters there are, with an ATTR each: MCID, MSEC and MPRIV.
pub const MASTERS: usize = 13;

pub(crate) const MCID_AT: u32 = 4;

pub(crate) const MCID_WIDE: u32 = 3;

const MSEC: u32 = 8;

const MPRIV: u32 = 9;

impl MasterNumber {
    pub fn exists(self) -> bool
        ensures { result ≡ is_master self }
    {
        self.0 < MASTERS as u32
    }

    // The peripheral that guards the master. Master 0 has none: 0, as for a number that is no master's. No Option: attributes_of reads
    // peripheral 0's SEC for a number that is no master's (docs/DECISIONS.md, Q-2), and that definition may not change.
    pub fn guarding(self) -> PeripheralNumber
        ensures { result ≡ guarding_of self }
    {
        let m = self.0;
        match m {
            1 => PeripheralNumber(106),
            2 => PeripheralNumber(53),
            3 => PeripheralNumber(54),
            4 => PeripheralNumber(56),
            5 => PeripheralNumber(57),
            6 => PeripheralNumber(60),
            7 => PeripheralNumber(99),
            8 => PeripheralNumber(101),
            9 => PeripheralNumber(93),
            10 => PeripheralNumber(103),
            11 => PeripheralNumber(104),
            12 => PeripheralNumber(97),
            _ => PeripheralNumber(0),
        }
    }
}

// What the controller holds of one master: its ATTR, and the SEC bit of its guarding peripheral, true where it has none.
#[derive(Clone, Copy)]
pub struct Attributes {
    pub attr: u32,
    pub sec: bool,
}

impl Attributes {
    // The kind of asking of the master's access.
    pub fn carried(self, write: bool) -> Kind
        ensures { result ≡ carried self write }
    {
        Kind {
            cid: Cid(words::field_of(self.attr, MCID_AT, MCID_WIDE)),
            write,
            privileged: words::bit_of(self.attr, MPRIV),
            secure: words::bit_of(self.attr, MSEC) & self.sec,
        }
    }
}
