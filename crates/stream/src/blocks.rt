ghost use Rattle.std.specs.Prelude.{◌≡◌, ◌≤◌, ◌-◌, ◌&&◌, length, ◌≢◌};
ghost use Rattle.script.specs.Command.{command_of};
ghost use Rattle.response.specs.Response.{bytes_after, place_after, room_for_longest, state_after};
ghost use Rattle.stream.specs.Blocks.{called, given, is_bad, place_at, stop};
ghost use Rattle.stream.specs.Kept.{kept_of, line_room, next_number, nothing_of};
ghost use Rattle.stream.specs.Stands.{Stands};
ghost use Rattle.stream.specs.Transcript.{lines_in};

use crate::feeds::split_line;
use crate::kept::{Held, LINE_ROOM, keep};
use response::{RESPONSE_MOST, respond};

// What a call gives back: how many bytes of the block it took, the place behind what it put out, what is kept now, and the number of the
// bad line that it stopped behind, if it did.
#[derive(Clone, Copy)]
pub struct Taken {
    pub took: usize,
    pub filled: usize,
    pub held: Held,
    pub bad: Option<u64>,
}

// A line obeyed: the place behind what it prints, which stays where there is no room, and whether the line is bad. Both say something of
// each line, so neither is an Option.
#[derive(Clone, Copy)]
struct Ended {
    place: usize,
    bad: bool,
}

// Obeys a line. Only the text of a bad one starts with a b. That letter, and the place that stays where there is no room, are looked at
// since the clauses of `respond`, which docs/PROMISES.md names, give the text and the place alone.
fn end_line(line: &[u8], number: u64, state: &mut [u32], out: &mut [u8], at: usize) -> Ended
    ensures place_value { result.place ≡ place_after line.now number state.old out.old at }
    ensures bad_value { result.bad ≡ (room_for_longest out.old at && is_bad (command_of line.now)) }
    ensures out_after { out.new ≡ bytes_after line.now number state.old out.old at }
    ensures state_after { state.new ≡ state_after line.now state.old out.old at }
{
    let place = respond(line, number, state, out, at);
    if place == at {
        return Ended { place, bad: false };
    }
    Ended {
        place,
        bad: out[at] == b'b',
    }
}

// A call that stops at no bad line. Not one with `behind_bad`: what is kept next differs, what was held or nothing of the line behind.
fn stopped(took: usize, filled: usize, held: Held) -> Taken
    ensures { result ≡ record { took = took; filled = filled; held = held; bad = None } }
{
    Taken {
        took,
        filled,
        held,
        bad: None,
    }
}

// A call that stops behind a bad line.
fn behind_bad(took: usize, filled: usize, number: u64) -> Taken
    ensures { result ≡ record { took = took; filled = filled; held = nothing_of (next_number number); bad = Some number } }
{
    Taken {
        took,
        filled,
        held: Held {
            bytes: 0,
            number: number.wrapping_add(1),
        },
        bad: Some(number),
    }
}

// Takes the lines at the end of a block of `size` bytes, where nothing is kept. What is lent stays apart, as in `take`: a struct of three
// `&mut` is no plainer, since its contract would have to say that each stays the one that it was.
fn take_lines(
    number: u64,
    state: &mut [u32],
    line: &mut [u8; LINE_ROOM],
    size: usize,
    block: &[u8],
    out: &mut [u8],
    at: usize,
) -> Taken
    requires { length block.now ≤ size }
    ensures { Stands (stop (place_at (size - length block.now) (kept_of (nothing_of number) line.old state.old) out.old at) (lines_in block.now)) result state.new line.new out.new }
{
    let mut left = block;
    let mut next = number;
    let mut place = at;
    while let Some((text, more)) = split_line(left) {
        let ended = end_line(text, next, state, out, place);
        if ended.place == place {
            return stopped(
                size - left.len(),
                place,
                Held {
                    bytes: 0,
                    number: next,
                },
            );
        }
        left = more;
        place = ended.place;
        if ended.bad {
            return behind_bad(size - left.len(), place, next);
        }
        next = next.wrapping_add(1);
    }
    let bytes = keep(line, 0, left);
    stopped(
        size,
        place,
        Held {
            bytes,
            number: next,
        },
    )
}

// Whether there is room for the longest text: the test of `respond`, asked before the kept bytes change. Shared it would be a public
// function more, with a contract and edits of its own, for one line.
fn has_room(out: &[u8], at: usize) -> bool
    ensures { result ≡ room_for_longest out.now at }
{
    RESPONSE_MOST <= out.len().saturating_sub(at)
}

// Takes the end of a line of which bytes are kept, and the lines behind it.
fn take_begun(
    held: Held,
    state: &mut [u32],
    line: &mut [u8; LINE_ROOM],
    block: &[u8],
    out: &mut [u8],
    at: usize,
) -> Taken
    requires { (held.bytes ≤ line_room) × (held.bytes ≢ 0) }
    ensures { Stands (stop (place_at 0 (kept_of held line.old state.old) out.old at) (lines_in block.now)) result state.new line.new out.new }
{
    let number = held.number;
    let Some((text, more)) = split_line(block) else {
        let bytes = keep(line, held.bytes, block);
        return stopped(block.len(), at, Held { bytes, number });
    };
    if !has_room(out, at) {
        return stopped(0, at, held);
    }
    let bytes = keep(line, held.bytes, text);
    let ended = end_line(&line[..bytes], number, state, out, at);
    if ended.bad {
        return behind_bad(block.len() - more.len(), ended.place, number);
    }
    take_lines(
        number.wrapping_add(1),
        state,
        line,
        block.len(),
        more,
        out,
        ended.place,
    )
}

// Takes bytes of the input, as many as there is room for: the lines that end in the block are obeyed, each text put behind the one before,
// from `at` on, and what stands behind the last is kept. It stops behind a bad line, and where there is room for fewer than
// `RESPONSE_MOST` bytes. `line` is LINE_ROOM bytes: with any other length, or with more bytes held, nothing is taken.
pub fn take(
    held: Held,
    state: &mut [u32],
    line: &mut [u8],
    block: &[u8],
    out: &mut [u8],
    at: usize,
) -> Taken
    ensures taken { result ≡ given (called (kept_of held line.old state.old) block.now out.old at) }
    ensures bytes { out.new ≡ (called (kept_of held line.old state.old) block.now out.old at).out }
    ensures memory { line.new ≡ (called (kept_of held line.old state.old) block.now out.old at).kept.memory }
    ensures words { state.new ≡ (called (kept_of held line.old state.old) block.now out.old at).kept.words }
{
    let Some(line) = line.as_mut_array::<LINE_ROOM>() else {
        return stopped(0, at, held);
    };
    if LINE_ROOM < held.bytes {
        return stopped(0, at, held);
    }
    if held.bytes == 0 {
        return take_lines(held.number, state, line, block.len(), block, out, at);
    }
    take_begun(held, state, line, block, out, at)
}
