ghost use Rattle.std.specs.Prelude.{false, ◌≡◌, ◌+◌, ◌≤◌, ◌<◌, length};
ghost use Rattle.regions.specs.Ahead.{ahead, base_ahead, sub_ahead};
ghost use Rattle.regions.specs.Masks.{base_gathered, masks, openings, sub_gathered};
ghost use Rattle.regions.specs.Words.{base, region_words, sub};

use crate::ahead::{Reach, reach_of};
use crate::masks::{Masks, none_gathered, openings, with_base, with_sub};
use crate::places::{BASE_WORDS, CIDCFGR, REGION_WORDS, SUBREGION_WORDS};

// What the base regions that were looked at say at an offset, and up to where they say that.
#[derive(Clone, Copy)]
pub(crate) struct Scan {
    pub(crate) masks: Masks,
    pub(crate) to: u64,
}

// With subregion s of base region x, which covers.
fn sub_scanned(w: &[u32], x: usize, s: usize, o: u32, scan: Scan) -> Scan
    requires { (base x + region_words ≤ length w.now) × (s < 2) }
    ensures masks_value { result.masks ≡ sub_gathered false openings w.now x s o scan.masks }
    ensures to_value { result.to ≡ sub_ahead w.now (sub x s) o scan.to }
{
    let b = REGION_WORDS * x;
    let p = b + BASE_WORDS + SUBREGION_WORDS * s;
    match reach_of(w, p, o, scan.to) {
        Reach::Outside(to) => Scan { to, ..scan },
        Reach::Inside(to) => Scan {
            masks: with_sub(w[b], w[p], openings(w[p]), scan.masks),
            to,
        },
    }
}

// With base region x, and its subregions, which matter only where it covers.
fn base_scanned(w: &[u32], x: usize, o: u32, s: Scan) -> Scan
    requires { base x + region_words ≤ length w.now }
    ensures masks_value { result.masks ≡ base_gathered false openings w.now x o s.masks }
    ensures to_value { result.to ≡ base_ahead w.now x o s.to }
{
    let b = REGION_WORDS * x;
    match reach_of(w, b, o, s.to) {
        Reach::Outside(to) => Scan { to, ..s },
        Reach::Inside(to) => {
            let masks = with_base(w[b], w[b + CIDCFGR], s.masks);
            sub_scanned(w, x, 1, o, sub_scanned(w, x, 0, o, Scan { masks, to }))
        }
    }
}

// With the first n base regions, in one pass. `gathered` has no boundaries, and one walk for both would carry them, or a type that leaves
// them out, through each of its three functions: as much to read, and more to prove.
pub(crate) fn scanned(w: &[u32], n: usize, o: u32, to: u64) -> Scan
    requires { base n ≤ length w.now }
    ensures masks_value { result.masks ≡ masks false openings w.now n o }
    ensures to_value { result.to ≡ ahead w.now n o to }
{
    let mut s = Scan {
        masks: none_gathered(),
        to,
    };
    for x in 0..n {
        s = base_scanned(w, x, o, s);
    }
    s
}
