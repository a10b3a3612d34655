ghost use Rattle.std.specs.Prelude.{◌≡◌};
ghost use Rattle.diff.specs.Lent.{tiles};

use map::fill::ROW_NUMBERS;
use spans::{END, START};

// Whether the rows of lent memory go on one another from 0 to the end of the window, and nothing is left over.
pub(crate) fn tiles(map: &[u64], window: u64) -> bool
    ensures { result ≡ tiles window map.now }
{
    let mut at: u64 = 0;
    for row in map.chunks_exact(ROW_NUMBERS) {
        let end = row[END];
        if (row[START] != at) | (end < at) | (window <= end) {
            return false;
        }
        at = end + 1;
    }
    (map.len() % ROW_NUMBERS == 0) & (at == window)
}
