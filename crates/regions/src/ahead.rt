ghost use Rattle.std.specs.Prelude.{◌≡◌, ◌+◌, ◌<◌, length};
ghost use Rattle.regions.specs.Ahead.{reach_of};
ghost use Rattle.regions.specs.Words.{end_at};

use crate::places::{ENABLE, END, START};

// Whether an offset lies in a region or subregion, and up to where those that follow lie as it does.
pub(crate) enum Reach {
    Inside(u64),
    Outside(u64),
}

// To the region or subregion at p, up to `to`: START alone is ahead before it, nothing past END or where it is not enabled.
pub(crate) fn reach_of(w: &[u32], p: usize, o: u32, to: u64) -> Reach
    requires { p + end_at < length w.now }
    ensures { result ≡ reach_of w.now p o to }
{
    if (w[p] >> ENABLE) % 2 != 1 {
        return Reach::Outside(to);
    }
    if o < w[p + START] {
        return Reach::Outside(u64::from(w[p + START]).min(to));
    }
    if w[p + END] < o {
        return Reach::Outside(to);
    }
    Reach::Inside((u64::from(w[p + END]) + 1).min(to))
}
