ghost use Rattle.std.specs.Prelude.{◌≡◌};
ghost use Rattle.regions.specs.Lent.{enough};

use crate::places::{MOST_REGIONS, REGION_WORDS};

// The words of n base regions are there, and a guard may have so many.
pub(crate) fn enough(w: &[u32], n: usize) -> bool
    ensures { result ≡ enough w.now n }
{
    n <= MOST_REGIONS && REGION_WORDS * n <= w.len()
}
