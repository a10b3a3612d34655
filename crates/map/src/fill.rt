ghost use Rattle.std.specs.Prelude.{◌≡◌, ◌^◌, ◌≤◌, length};
ghost use Rattle.regions.specs.Rights.{rights_word};
ghost use Rattle.regions.specs.Words.{base, most_regions};
ghost use Rattle.spans.specs.Map.{map_of};
ghost use Rattle.spans.specs.Rows.{filled, size};
ghost use Rattle.map.specs.Fill.{answer_of, fill_answer, fill_numbers, fill_used, least_room, used_of};

use access::{Answer, Bus, Why};
use device::{STATE_WORDS, region_words};
use regions::places::REGION_WORDS;
use regions::{active_at, stretch_at};
use risaf::GuardNumber;

// A row is three numbers, and no map has more than 67 rows.
pub const ROW_NUMBERS: usize = spans::ROW_NUMBERS;

pub const MOST_ROWS: usize = 67;

pub const LEAST_ROOM: usize = ROW_NUMBERS * MOST_ROWS;

// The map of what n base regions give, over the front of lent memory (C's: no Vec), and its count of rows: from boundary to boundary, a span
// with the rights at its start. They are those of the active base regions, up to the next START. No `for` counts the turns: each
// finds where the next begins.
fn sweep(bus: Bus, w: &[u32], n: usize, window: u64, lent: &mut [u64]) -> usize
    requires { (n ≤ most_regions) × (base n ≤ length w.now) × (window ≤ 2 ^ 32) × (least_room ≤ length lent.old) }
    ensures value { result ≡ size (map_of (rights_word bus w.now n) window) }
    ensures lent_after { lent.new ≡ filled (map_of (rights_word bus w.now n) window) lent.old }
{
    let mut at: u64 = 0;
    let mut count: usize = 0;
    while at < window {
        let active = active_at(w, n, at as u32, window);
        let low = active.low;
        let high = active.high;
        let to = active.to;
        let part = &w[REGION_WORDS * low..REGION_WORDS * high];
        while at < to {
            let stretch = stretch_at(bus, part, high - low, at as u32, to);
            count = spans::put(lent, count, at, stretch.to - 1, stretch.rights);
            at = stretch.to;
        }
    }
    count
}

// The answer to a call that fills lent memory. No From: both types are of other crates.
pub fn answer(filled: Result<usize, Why>) -> Answer
    ensures { result ≡ answer_of filled }
{
    match filled {
        Ok(_) => Answer::Done(0),
        Err(why) => Answer::Rejected(why),
    }
}

// Fills lent memory with the map of a guard: how many numbers are used, or why none are. What it does not use stays as it was; on
// refusal all of it does.
pub fn fill(state: &[u32], guard: GuardNumber, buffer: &mut [u64]) -> Result<usize, Why>
    ensures answer_value { answer_of result ≡ fill_answer state.now guard.0 buffer.old }
    ensures used_value { used_of result ≡ fill_used state.now guard.0 buffer.old }
    ensures buffer_after { buffer.new ≡ fill_numbers state.now guard.0 buffer.old }
{
    if state.len() != STATE_WORDS || buffer.len() < LEAST_ROOM {
        return Err(Why::WrongLength);
    }
    let Some(shape) = guard.shape() else {
        return Err(Why::NoSuch);
    };
    let w = region_words(state, shape.place);
    let count = sweep(shape.bus, w, shape.regions, shape.window, buffer);
    Ok(ROW_NUMBERS * count)
}
