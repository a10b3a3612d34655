ghost use Rattle.std.specs.Prelude.{◌≡◌};
ghost use Rattle.diff.specs.Fill.{diff_answer, diff_numbers, diff_used, map_sized};
ghost use Rattle.map.specs.Fill.{answer_of, used_of};

use crate::lent::tiles;
use crate::walk::walk;
use access::Why;
use risaf::GuardNumber;

// A row is five numbers: start, end, old, new, count. Two maps have so many rows at most, since both end together.
pub const ROW_NUMBERS: usize = 5;

pub const MOST_ROWS: usize = map::fill::MOST_ROWS + map::fill::MOST_ROWS - 1;

pub const LEAST_ROOM: usize = ROW_NUMBERS * MOST_ROWS;

// Whether a map can have so many numbers.
fn map_sized(map: &[u64]) -> bool
    ensures { result ≡ map_sized map.now }
{
    (map.len() <= map::fill::LEAST_ROOM) & (map.len() % map::fill::ROW_NUMBERS == 0)
}

// Fills lent memory with what differs between two maps of a guard: how many numbers are used, or why none are. What it does not use
// stays as it was; on refusal all of it does.
pub fn fill(
    guard: GuardNumber,
    before: &[u64],
    after: &[u64],
    numbers: &mut [u64],
) -> Result<usize, Why>
    ensures answer_value { answer_of result ≡ diff_answer guard.0 before.now after.now numbers.old }
    ensures used_value { used_of result ≡ diff_used guard.0 before.now after.now numbers.old }
    ensures numbers_after { numbers.new ≡ diff_numbers guard.0 before.now after.now numbers.old }
{
    let long = LEAST_ROOM <= numbers.len();
    if !(long & map_sized(before) & map_sized(after)) {
        return Err(Why::WrongLength);
    }
    let Some(shape) = guard.shape() else {
        return Err(Why::NoSuch);
    };
    let window = shape.window;
    if !(tiles(before, window) & tiles(after, window)) {
        return Err(Why::NoSuch);
    }
    Ok(ROW_NUMBERS * walk(before, after, window, numbers))
}
