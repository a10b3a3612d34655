// What differs between the maps of each guard of two states, printed.
use diff::fill::ROW_NUMBERS;
use diff::used_part;
use risaf::{GUARD_NUMBERS, GuardNumber};
use script::{print_diff, print_end, print_guard};
use std::io;
use std::io::Write;

// Room for a sheet.
const SHEET_ROOM: usize = 65_536;

// The lines of rows, from `at` on. The place after them. Not one with `response`'s, where a row is three numbers and another line.
fn put_rows(out: &mut [u8], at: usize, rows: &[[u64; ROW_NUMBERS]]) -> usize {
    let mut place = at;
    for [start, end, old, new, count] in rows {
        place = print_diff(out, place, *start, *end, *old, *new, *count);
    }
    place
}

// The sheet of a guard: its `guard` line, what differs, and `end` with the count of rows. How many bytes it has.
fn put_guard(out: &mut [u8], old: &[u32], new: &[u32], guard: GuardNumber) -> usize {
    let mut before = [0u64; map::fill::LEAST_ROOM];
    let mut after = [0u64; map::fill::LEAST_ROOM];
    let mut numbers = [0u64; diff::fill::LEAST_ROOM];
    let made_before = map::fill::fill(old, guard, &mut before);
    let made_after = map::fill::fill(new, guard, &mut after);
    let differs = diff::fill::fill(
        guard,
        used_part(&before, made_before),
        used_part(&after, made_after),
        &mut numbers,
    );
    let (rows, _) = used_part(&numbers, differs).as_chunks();
    let a = print_guard(out, 0, guard);
    let b = put_rows(out, a, rows);
    print_end(out, b, rows.len() as u64)
}

// Prints the sheets of all guards, in rising number.
pub(crate) fn print(output: &mut impl Write, old: &[u32], new: &[u32]) -> io::Result<()> {
    let mut out = [0u8; SHEET_ROOM];
    for n in 0..GUARD_NUMBERS {
        let guard = GuardNumber(n);
        if guard.shape().is_some() {
            let at = put_guard(&mut out, old, new, guard);
            output.write_all(&out[..at.min(SHEET_ROOM)])?;
        }
    }
    Ok(())
}
