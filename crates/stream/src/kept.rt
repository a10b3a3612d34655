ghost use Rattle.std.specs.Prelude.{◌≡◌, ◌≤◌, length};
ghost use Rattle.device.specs.Applied.{applied_state};
ghost use Rattle.device.specs.declared.event.Event.TheVariants.{Reset};
ghost use Rattle.print.specs.Writing.{bytes_with, place_with};
ghost use Rattle.stream.specs.Kept.{at_start, kept_count, kept_in, line_room};
ghost use Rattle.stream.specs.Transcript.{end_text};

use print::print_bad;
use script::LINE_MOST;

// One byte more than a line has is kept, so that a line too long stays too long.
pub const LINE_ROOM: usize = LINE_MOST + 1;

// What is kept between calls beside the state: how many bytes of the unfinished line, the first of LINE_ROOM lent ones, and its number.
// The count stands beside the bytes: they are lent memory, as there is no heap, and a `Held` is copied.
// No invariant bounds the count: `called` in specs/Blocks says what `take` answers for more (`fits`).
#[derive(Clone, Copy)]
pub struct Held {
    pub bytes: usize,
    pub number: u64,
}

// The start: the state reset, and nothing kept of line 1.
pub fn start(state: &mut [u32]) -> Held
    ensures value { result ≡ at_start }
    ensures state_after { state.new ≡ applied_state Reset state.old }
{
    device::apply_reset(state);
    Held {
        bytes: 0,
        number: 1,
    }
}

// Puts bytes behind the n that are kept, as many as there is room for. How many are kept then.
pub(crate) fn keep(line: &mut [u8; LINE_ROOM], n: usize, bytes: &[u8]) -> usize
    requires { n ≤ line_room }
    ensures value { result ≡ kept_count n bytes.now }
    ensures few { result ≤ line_room }
    ensures line_after { line.new ≡ kept_in line.old n bytes.now }
{
    let count = (LINE_ROOM - n).min(bytes.len());
    line[n..n + count].copy_from_slice(&bytes[..count]);
    n + count
}

// The end of the input: where bytes are kept, a last line without a line feed, which is bad. The place after what it prints.
pub fn finish(held: Held, out: &mut [u8], at: usize) -> usize
    ensures place { result ≡ place_with out.old at (end_text held.bytes held.number) }
    ensures bytes { out.new ≡ bytes_with out.old at (end_text held.bytes held.number) }
{
    if held.bytes == 0 {
        return at;
    }
    print_bad(out, at, held.number)
}
