ghost use Rattle.std.specs.Prelude.{◌≡◌, get_or, length};
ghost use Rattle.access.specs.Answer.{encoded_of};
ghost use Rattle.diff.specs.Fill.{diff_answer, diff_numbers, diff_used};
ghost use Rattle.map.specs.Fill.{fill_answer, fill_numbers, fill_used};
ghost use Rattle.spans.specs.Lookup.{lookup_in};

use risaf::GuardNumber;
use spans::{END, RIGHTS, ROW_NUMBERS, START};

#[unsafe(no_mangle)]
pub extern "C" fn rif_map(state: &[u32], guard: u32, numbers: &mut [u64], used: &mut u64) -> u64
    ensures answer { result ≡ encoded_of (fill_answer state.now guard numbers.old) }
    ensures map { numbers.new ≡ fill_numbers state.now guard numbers.old }
    ensures count { used.new ≡ fill_used state.now guard numbers.old }
{
    let filled = map::fill::fill(state, GuardNumber(guard), numbers);
    *used = filled.unwrap_or(0) as u64;
    map::answer(filled).encoded()
}

// The row that encloses an offset, where there is one: the three numbers, and their count given back.
#[unsafe(no_mangle)]
pub extern "C" fn rif_lookup(
    numbers: &[u64],
    offset: u64,
    start: &mut u64,
    end: &mut u64,
    rights: &mut u64,
) -> u64
    ensures count { result ≡ length (lookup_in numbers.now offset) }
    ensures start { start.new ≡ get_or (lookup_in numbers.now offset) 0 start.old }
    ensures end { end.new ≡ get_or (lookup_in numbers.now offset) 1 end.old }
    ensures rights { rights.new ≡ get_or (lookup_in numbers.now offset) 2 rights.old }
{
    let row = map::lookup(numbers, offset);
    if row.len() == ROW_NUMBERS {
        *start = row[START];
        *end = row[END];
        *rights = row[RIGHTS];
    }
    row.len() as u64
}

// What differs between two maps of a guard.
#[unsafe(no_mangle)]
pub extern "C" fn rif_diff(
    guard: u32,
    before: &[u64],
    after: &[u64],
    numbers: &mut [u64],
    used: &mut u64,
) -> u64
    ensures answer { result ≡ encoded_of (diff_answer guard before.now after.now numbers.old) }
    ensures rows { numbers.new ≡ diff_numbers guard before.now after.now numbers.old }
    ensures count { used.new ≡ diff_used guard before.now after.now numbers.old }
{
    let filled = diff::fill::fill(GuardNumber(guard), before, after, numbers);
    *used = filled.unwrap_or(0) as u64;
    diff::answer(filled).encoded()
}
