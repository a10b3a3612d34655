ghost use Rattle.std.specs.Prelude.{◌≡◌, ◌+◌, ◌≤◌, length};
ghost use Rattle.regions.specs.Active.{active_in, with_region};
ghost use Rattle.regions.specs.Words.{base, region_words};

use crate::ahead::{Reach, reach_of};
use crate::lent::enough;
use crate::masks::none_enabled;
use crate::places::{MOST_REGIONS, REGION_WORDS};

// The base regions that a sweep has to look at from an offset on, up to `to`: no other covers there.
#[derive(Clone, Copy)]
pub struct Active {
    // From this one up to the other, which is not one of them. No Range: `active_in`, by which docs/PROMISES.md has `active_at`, names both.
    pub low: usize,
    pub high: usize,
    pub to: u64,
}

// With base region x, which is active from START on to END.
fn with_region(w: &[u32], x: usize, o: u32, a: Active) -> Active
    requires { base x + region_words ≤ length w.now }
    ensures { result ≡ with_region w.now x o a }
{
    match reach_of(w, REGION_WORDS * x, o, a.to) {
        Reach::Outside(to) => Active { to, ..a },
        Reach::Inside(_) => Active {
            low: if a.high == 0 { x } else { a.low },
            high: x + 1,
            ..a
        },
    }
}

// Those of n base regions, up to `to` or a START that is nearer. Where the words are too few, none up to `to`.
pub fn active_at(w: &[u32], n: usize, o: u32, to: u64) -> Active
    ensures { result ≡ active_in w.now n o to }
{
    let mut a = Active {
        low: 0,
        high: 0,
        to,
    };
    if !enough(w, n) {
        return a;
    }
    // Where none is enabled, which is told without a loop, none has to be looked at.
    if REGION_WORDS * MOST_REGIONS <= w.len() && none_enabled(w) {
        return a;
    }
    for x in 0..n {
        a = with_region(w, x, o, a);
    }
    a
}
