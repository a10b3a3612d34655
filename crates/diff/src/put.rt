ghost use Rattle.std.specs.Prelude.{◌≡◌, ◌+◌, ◌*◌, ◌≤◌, length};
ghost use Rattle.diff.specs.Bits.{differing};
ghost use Rattle.diff.specs.Put.{continues, count_with, numbers_with};
ghost use Rattle.diff.specs.Rows.{diff_row_numbers};

use crate::fill::ROW_NUMBERS;
use spans::{END, START};

// Behind its start and end a row has these.
const OLD: usize = 2;

const NEW: usize = 3;

const COUNT: usize = 4;

// In how many bits two rights words differ.
fn differing(old: u64, new: u64) -> u64
    ensures { result ≡ differing old new }
{
    u64::count_ones(old ^ new) as u64
}

// Whether there is a last row that ends right before start and has the same two words.
fn continues(lent: &[u64], count: usize, start: u64, old: u64, new: u64) -> bool
    requires { diff_row_numbers * count ≤ length lent.now }
    ensures { result ≡ continues lent.now count start old new }
{
    if count == 0 {
        return false;
    }
    let last = ROW_NUMBERS * count - ROW_NUMBERS;
    let end = lent[last + END];
    if start <= end {
        return false;
    }
    (start - end == 1) & (lent[last + OLD] == old) & (lent[last + NEW] == new)
}

// One more span behind the first count rows of lent memory (C's: no Vec), and how many rows there then are. Where its words are equal it is no
// row; where it goes on the last row that row ends with it; else it is a row of its own. Not one function with `spans::put`: that
// one tests the room, one word and no gap, and writes another row, so both would be longer.
pub(crate) fn put(lent: &mut [u64], count: usize, start: u64, end: u64, old: u64, new: u64) -> usize
    requires { diff_row_numbers * count + diff_row_numbers ≤ length lent.old }
    ensures value { result ≡ count_with lent.old count start old new }
    ensures lent_after { lent.new ≡ numbers_with lent.old count start end old new }
{
    if old == new {
        return count;
    }
    let i = ROW_NUMBERS * count;
    if continues(lent, count, start, old, new) {
        lent[i - ROW_NUMBERS + END] = end;
        return count;
    }
    lent[i + START] = start;
    lent[i + END] = end;
    lent[i + OLD] = old;
    lent[i + NEW] = new;
    lent[i + COUNT] = differing(old, new);
    count + 1
}
