ghost use Rattle.std.specs.Prelude.{◌≡◌, ◌+◌, ◌≤◌, length};
ghost use Rattle.device.specs.Applied.{applied_answer, applied_state};
ghost use Rattle.script.specs.Command.{command_of};
ghost use Rattle.print.specs.Parts.{Wrote};
ghost use Rattle.print.specs.Print.{bad_line};
ghost use Rattle.response.specs.Response.{answer_text, bytes_after, most, left_by, place_after, state_after, text_of};

use crate::sheet::{put_answer, put_map};
use device::Event;
use script::{Command, print_bad, read_line};

// The most bytes that a line prints: the sheet of a map of the most rows.
pub const RESPONSE_MOST: usize = 2800;

// An event, applied and its answer printed. A function of its own: the must-fail edit `first` is refused here, not for what `put_map` does.
fn obey_event(event: Event, state: &mut [u32], out: &mut [u8], at: usize) -> usize
    requires { at + most ≤ length out.old }
    ensures wrote { Wrote out.old at (answer_text (applied_answer event state.old)) out.new result }
    ensures state_after { state.new ≡ applied_state event state.old }
{
    let answer = device::apply(state, event);
    put_answer(out, at, answer)
}

// A line that is bad. A function of its own, with the place and bytes of `print_bad` as one fact, for the must-fail edit `first` likewise.
fn put_bad(out: &mut [u8], at: usize, number: u64) -> usize
    requires { at + most ≤ length out.old }
    ensures { Wrote out.old at (bad_line number) out.new result }
{
    print_bad(out, at, number)
}

// A line obeyed and printed, where there is room for whatever it prints.
fn obey(line: &[u8], number: u64, state: &mut [u32], out: &mut [u8], at: usize) -> usize
    requires { at + most ≤ length out.old }
    ensures wrote { Wrote out.old at (text_of (command_of line.now) number state.old) out.new result }
    ensures state_after { state.new ≡ left_by (command_of line.now) state.old }
{
    let Some(command) = read_line(line) else {
        return put_bad(out, at, number);
    };
    match command {
        Command::Event(event) => obey_event(event, state, out, at),
        Command::Map(guard) => put_map(out, at, state, guard),
    }
}

// A line's bytes before the line feed, obeyed: its text goes to `out` from `at` on, and the place after it is given back. `number` is
// the line's own, counted from 1. With room for fewer than RESPONSE_MOST bytes nothing is done, and the place is the same: no Option, since
// its clause, which docs/PROMISES.md names, gives a place.
pub fn respond(line: &[u8], number: u64, state: &mut [u32], out: &mut [u8], at: usize) -> usize
    ensures place { result ≡ place_after line.now number state.old out.old at }
    ensures bytes { out.new ≡ bytes_after line.now number state.old out.old at }
    ensures next { state.new ≡ state_after line.now state.old out.old at }
{
    if out.len().saturating_sub(at) < RESPONSE_MOST {
        return at;
    }
    obey(line, number, state, out, at)
}
