#![tactic(auto, unfolding(crate::specs::Peripherals::exists, crate::specs::Peripherals::grants))]

ghost use Rattle.std.specs.Prelude.{◌≡◌};
ghost use Rattle.rifsc.specs.Peripherals.{exists, grants};

use crate::registers::PERIPHERALS;

// A peripheral's number; never a compartment's or a guard's number.
#[derive(Clone, Copy)]
pub struct PeripheralNumber(pub u32);

// Peripherals are numbered below this; the PPSR bits above are those of the firewall's own blocks.
const PERIPHERAL_NUMBERS: u32 = 128;

impl PeripheralNumber {
    pub fn exists(self) -> bool
        ensures { result ≡ exists self }
    {
        if PERIPHERAL_NUMBERS <= self.0 {
            return false;
        }
        words::bit_at(PERIPHERALS, self.0)
    }
}

// What the controller holds of one peripheral: its SEC and its PRIV.
#[derive(Clone, Copy)]
pub struct Filter {
    pub sec: bool,
    pub privileged: bool,
}

impl Filter {
    // Whether they let an access pass.
    pub fn grants(self, secure: bool, privileged: bool) -> bool
        ensures { result ≡ grants self secure privileged }
    {
        (!self.sec | secure) & (!self.privileged | privileged)
    }
}
