ghost use Rattle.std.specs.Prelude.{true, ◌≡◌, ◌+◌, ◌≤◌, length};
ghost use Rattle.map.specs.Fill as map;
ghost use Rattle.diff.specs.Diff.{diff_of};
ghost use Rattle.diff.specs.Fill.{least_diff_room};
ghost use Rattle.diff.specs.Lent.{map_rights, tiles};
ghost use Rattle.diff.specs.Put.{past_row};
ghost use Rattle.diff.specs.Rows.{filled_diff, size_diff};

use crate::put::put;
use map::fill::ROW_NUMBERS;
use spans::{END, RIGHTS, near};

// The row after the one at i, where that ends before at; else the one at i.
fn past(rows: &[u64], i: usize, at: u64) -> usize
    requires { i + map.row_numbers ≤ length rows.now }
    ensures { result ≡ past_row rows.now i at }
{
    if rows[i + END] < at {
        return i + ROW_NUMBERS;
    }
    i
}

// What differs between two maps of one window, flat rows as C has them, over the front of lent memory, and its count of rows: both are walked once, from
// boundary to boundary of either. No `for` counts the turns: each finds where the next begins, and which row is passed.
pub(crate) fn walk(before: &[u64], after: &[u64], window: u64, lent: &mut [u64]) -> usize
    requires { (tiles window before.now ≡ true) × (tiles window after.now ≡ true) × (length before.now ≤ map.least_room) × (length after.now ≤ map.least_room) × (least_diff_room ≤ length lent.old) }
    ensures value { result ≡ size_diff (diff_of (map_rights before.now) (map_rights after.now) window) }
    ensures lent_after { lent.new ≡ filled_diff (diff_of (map_rights before.now) (map_rights after.now) window) lent.old }
{
    let mut at: u64 = 0;
    let mut i: usize = 0;
    let mut j: usize = 0;
    let mut count: usize = 0;
    while at < window {
        let to = near(at, before[i + END] + 1, after[j + END] + 1);
        count = put(
            lent,
            count,
            at,
            to - 1,
            before[i + RIGHTS],
            after[j + RIGHTS],
        );
        at = to;
        i = past(before, i, to);
        j = past(after, j, to);
    }
    count
}
