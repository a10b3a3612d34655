ghost use Rattle.std.specs.Prelude.{◌≡◌, ◌+◌, ◌*◌, ◌/◌, ◌≤◌, length};
ghost use Rattle.map.specs.Fill.{least_room, row_numbers};
ghost use Rattle.print.specs.Parts.{Wrote};
ghost use Rattle.print.specs.Print.{span_line};
ghost use Rattle.spans.specs.Rows.{end, rights, rows_in, start};
ghost use Rattle.response.specs.Response.{answer_text, map_text, most};
ghost use Rattle.response.specs.Sheet.{sheet, span_lines};

use access::Answer;
use map::fill::{LEAST_ROOM, ROW_NUMBERS};
use map::used_part;
use risaf::GuardNumber;
use script::{print_answer, print_end, print_guard, print_span};
use spans::{END, RIGHTS, START};

// `out` and `at` stay two parameters, with the room they need: `print` takes them so, and each function here writes but once or twice.

// The line of an answer.
pub(crate) fn put_answer(out: &mut [u8], at: usize, answer: Answer) -> usize
    requires { at + most ≤ length out.old }
    ensures { Wrote out.old at (answer_text answer) out.new result }
{
    print_answer(out, at, answer.number(), answer.value())
}

// The line of row k of a map. By index, not by `as_chunks`: `start`, `end`, `rights` and `rows_in` of spans, in whose words a sheet is
// defined, count the rows of the flat numbers so, and each array would first have to be told to be its row.
fn put_row(out: &mut [u8], at: usize, map: &[u64], k: usize) -> usize
    requires { (at + 40 ≤ length out.old) × (row_numbers * k + row_numbers ≤ length map.now) }
    ensures { Wrote out.old at (span_line (start map.now k) (end map.now k) (rights map.now k)) out.new result }
{
    let i = ROW_NUMBERS * k;
    print_span(out, at, map[i + START], map[i + END], map[i + RIGHTS])
}

// The lines of the first count rows of a map.
fn put_rows(out: &mut [u8], at: usize, map: &[u64], count: usize) -> usize
    requires { (at + 40 * count ≤ length out.old) × (row_numbers * count ≤ length map.now) }
    ensures { Wrote out.old at (span_lines (rows_in count map.now)) out.new result }
{
    let mut p = at;
    for k in 0..count {
        p = put_row(out, p, map, k);
    }
    p
}

// The sheet of a map.
fn put_sheet(out: &mut [u8], at: usize, guard: GuardNumber, map: &[u64]) -> usize
    requires { (at + most ≤ length out.old) × (length map.now ≤ least_room) }
    ensures { Wrote out.old at (sheet guard.0 (rows_in (length map.now / row_numbers) map.now)) out.new result }
{
    let count = map.len() / ROW_NUMBERS;
    let a = print_guard(out, at, guard);
    let b = put_rows(out, a, map, count);
    print_end(out, b, count as u64)
}

// The map of a guard, made in lent numbers: its sheet, or the line of its refusal. Told by the answer's number, where the must-fail edit
// `third` takes one refusal for all: a match on the Result could not be wrong so.
fn put_filled(
    out: &mut [u8],
    at: usize,
    state: &[u32],
    guard: GuardNumber,
    lent: &mut [u64],
) -> usize
    requires { (at + most ≤ length out.old) × (length lent.old ≡ least_room) }
    ensures { Wrote out.old at (map_text state.now guard.0) out.new result }
{
    let filled = map::fill::fill(state, guard, lent);
    let answer = map::answer(filled);
    if answer.number() != 0 {
        return put_answer(out, at, answer);
    }
    let map = used_part(lent, filled);
    put_sheet(out, at, guard, map)
}

// The map of a guard.
pub(crate) fn put_map(out: &mut [u8], at: usize, state: &[u32], guard: GuardNumber) -> usize
    requires { at + most ≤ length out.old }
    ensures { Wrote out.old at (map_text state.now guard.0) out.new result }
{
    let mut lent = [0u64; LEAST_ROOM];
    put_filled(out, at, state, guard, &mut lent)
}
