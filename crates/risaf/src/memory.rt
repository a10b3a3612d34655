#![tactic(auto, unfolding(crate::specs::Memory::memory_checked, crate::specs::Memory::memory_checks, crate::specs::Memory::recorded_fault, crate::specs::Rows::of_head, access::specs::Checks::answered_with, access::specs::Checks::reached_with))]

ghost use Rattle.std.specs.Prelude.{◌≡◌};
ghost use Rattle.risaf.specs.Memory.{memory_checked, recorded_fault};

use crate::Shape;
use access::{DEBUGGER, Kind, Why};
use regions::places::COMPARTMENTS;

// The fault registers, as stored.
#[derive(Clone, Copy)]
pub struct Faults {
    pub iasr: u32,
    pub iaesr: u32,
    pub iaddr: u32,
}

// Bits of IASR and of IAESR, and the named ones of IAESR.
const IAEF: u32 = 1;

const PRIVILEGED: u32 = 16;

const SECURE: u32 = 32;

const WRITE: u32 = 128;

const IAESR_NAMED: u32 = 0xb7;

// The bytes of a word.
const WORD: u32 = 4;

// The shape of the guard, where the rules are to be asked of a memory access of a kind, or why it is rejected before. None stands for no
// such guard, or no such master.
pub fn memory_checked(guard: Option<Shape>, o: u32, width: u32, k: Kind) -> Result<Shape, Why>
    ensures { result ≡ memory_checked guard o width k }
{
    let Some(shape) = guard else {
        return Err(Why::NoSuch);
    };
    if DEBUGGER.0 < k.cid.0 {
        return Err(Why::NoSuch);
    }
    // A word is what is asked for most: one match over the three widths is three instructions more for it.
    let aligned = if WORD <= width {
        if width != WORD {
            return Err(Why::NoSuch);
        }
        o % WORD == 0
    } else {
        match width {
            1 => true,
            2 => o % 2 == 0,
            _ => return Err(Why::NoSuch),
        }
    };
    if !aligned {
        return Err(Why::Misaligned);
    }
    if shape.window <= o as u64 {
        return Err(Why::Outside);
    }
    Ok(shape)
}

impl Faults {
    // After a refused memory access: IAEF is set, and the first since it was 0 fills IAESR and IADDR.
    pub fn recorded(self, o: u32, k: Kind) -> Self
        ensures { result ≡ recorded_fault self o k }
    {
        let iasr = words::with_bit(self.iasr, IAEF, true);
        if (self.iasr >> IAEF) % 2 == 1 {
            return Faults { iasr, ..self };
        }
        let cid = k.cid.0 % COMPARTMENTS;
        let kind = cid
            + PRIVILEGED * (k.privileged as u32)
            + SECURE * (k.secure as u32)
            + WRITE * (k.write as u32);
        let iaesr = words::merge(self.iaesr, kind, IAESR_NAMED);
        Faults {
            iasr,
            iaesr,
            iaddr: o,
        }
    }
}
