ghost use Rattle.std.specs.Prelude.{◌≡◌};
ghost use Rattle.risaf.specs.Contents.{reset};

use crate::guards::low_bits;
use regions::places::{END, MOST_REGIONS, REGION_WORDS, SUBREGION_WORDS};

// The words of a guard that are none of its regions', and how many a guard has in all.
pub const CR: usize = 0;

pub const IASR: usize = 1;

pub const IAESR: usize = 2;

pub const IADDR: usize = 3;

pub const HEAD_WORDS: usize = 4;

pub const REGIONS_WORDS: usize = MOST_REGIONS * REGION_WORDS;

pub const GUARD_WORDS: usize = HEAD_WORDS + REGIONS_WORDS;

// A guard's registers as stored, whole words. The regions lie one after the other, as regions::places has it. There is room for the
// most regions, whatever the guard's own count. Not with Faults in it: the definitions of its words have each by itself.
#[derive(Clone, Copy)]
pub struct Guard {
    pub cr: u32,
    pub iasr: u32,
    pub iaesr: u32,
    pub iaddr: u32,
    pub regions: [u32; REGIONS_WORDS],
}

impl Guard {
    // All 0 but each END, the last byte of the first granule. A base region's words and a subregion's are as many.
    pub fn reset(granule: u32) -> Self
        ensures { result ≡ reset granule }
    {
        let end = low_bits(granule);
        let mut regions = [0; REGIONS_WORDS];
        // Counted, so that it shows where END lies: skip(END).step_by(SUBREGION_WORDS) hides it.
        for i in 0..REGIONS_WORDS / SUBREGION_WORDS {
            regions[SUBREGION_WORDS * i + END] = end;
        }
        Guard {
            cr: 0,
            iasr: 0,
            iaesr: 0,
            iaddr: 0,
            regions,
        }
    }
}
