// Where the words and the bits of a region are. Flat words, no struct of them: they lie so in the caller's memory, which is C's.

// A base region's words: CFGR, START, END, CIDCFGR. A subregion's: CFGR, START, END, NEST.
pub const START: usize = 1;

pub const END: usize = 2;

pub const CIDCFGR: usize = 3;

pub const NEST: usize = 3;

pub const BASE_WORDS: usize = 4;

pub const SUBREGION_WORDS: usize = 4;

// A base region has subregions A and B, whose words lie behind its own.
pub const REGION_WORDS: usize = BASE_WORDS + 2 * SUBREGION_WORDS;

// No guard has more base regions.
pub const MOST_REGIONS: usize = 11;

// ---- bits of CFGR: the enable (BREN, SREN) and SEC of both, PRIVC of a base region for each compartment, and of a subregion
// SRCID, PRIV, RDEN, WREN

pub const ENABLE: u32 = 0;

pub const SEC: u32 = 8;

pub const PRIVC: u32 = 16;

pub const SRCID: u32 = 4;

pub const PRIV: u32 = 9;

pub const RDEN: u32 = 12;

pub const WREN: u32 = 13;

// ---- bits of CIDCFGR: the read enables of the compartments from here, the write enables from here

pub const READS: u32 = 0;

pub const WRITES: u32 = 16;

// How many compartments there are: a field that holds one is three bits.
pub const COMPARTMENTS: u32 = 8;
