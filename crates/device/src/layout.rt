// The state's memory: every part of it, one after the other, each behind the part before. specs/Layout.antt has the same as sizes.
ghost use Rattle.std.specs.Prelude.{◌≡◌};
ghost use Rattle.device.specs.Layout.{regions_in};

use rifsc::MASTERS;
use risaf::{GUARD_COUNT, GUARD_WORDS, HEAD_WORDS, REGIONS_WORDS};
use words::BIT_WORDS;

// RIFSC.
pub(crate) const CR: usize = 0;

pub(crate) const SECCFGR: usize = CR + 1;

pub(crate) const PRIVCFGR: usize = SECCFGR + BIT_WORDS;

pub(crate) const RCFGLOCKR: usize = PRIVCFGR + BIT_WORDS;

pub(crate) const RIMC_CR: usize = RCFGLOCKR + BIT_WORDS;

pub(crate) const ATTR: usize = RIMC_CR + 1;

// IAC.
pub(crate) const IER: usize = ATTR + MASTERS;

pub(crate) const ISR: usize = IER + BIT_WORDS;

// The interrupt line, bit 0 of its word, and the count of flags set and enabled, bits 7:0 of its word.
pub(crate) const LINE: usize = ISR + BIT_WORDS;

pub(crate) const COUNT: usize = LINE + 1;

// The guards, in rising number.
pub(crate) const GUARDS: usize = COUNT + 1;

// How many words the state has. Inside this crate it is an array of so many; the public functions take a slice of any length, as C has it,
// and look once.
pub const STATE_WORDS: usize = GUARDS + GUARD_COUNT * GUARD_WORDS;

// The words of the regions of the guard at a place among the guards, as a part of the state's memory. An empty part where there is no
// such guard, or the memory is of the wrong length: regions_in, its public promise, says what it gives of any length.
pub fn region_words(state: &[u32], place: usize) -> &[u32]
    ensures { result.now ≡ regions_in state.now place }
{
    if state.len() != STATE_WORDS {
        return &state[..0];
    }
    if GUARD_COUNT <= place {
        return &state[..0];
    }
    let start = GUARDS + GUARD_WORDS * place + HEAD_WORDS;
    let end = start + REGIONS_WORDS;
    &state[start..end]
}
