ghost use Rattle.std.specs.Prelude.{◌^◌, ◌<◌, ◌≤◌};
ghost use Rattle.stream.specs.Kept.{line_room};

use device::STATE_WORDS;
use stream::{Held, LINE_ROOM};

// How much is kept to be written at once.
pub(crate) const OUT_ROOM: usize = 65_536;

// All that is kept from block to block, in fixed memory (no heap, so no Vec): what `stream` keeps, and the output, filled up to a place and
// not yet written. That a line's number
// is a u64 is said too, since the check does not say it of a number behind a reference.
#[derive(Drop)]
pub struct Memory {
    pub state: [u32; STATE_WORDS],
    pub line: [u8; LINE_ROOM],
    pub held: Held,
    pub out: [u8; OUT_ROOM],
    pub at: usize,
    ghost few: { held.bytes ≤ line_room },
    ghost numbered: { held.number < 2 ^ 64 },
}
