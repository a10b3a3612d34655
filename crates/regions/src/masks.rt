ghost use Rattle.std.specs.Prelude.{◌≡◌, ◌+◌, ◌*◌, ◌≤◌, ◌<◌, length, false, not, true, MatchOption};
ghost use Rattle.words.specs.Bit.{field};
ghost use Rattle.regions.specs.Words.{base, end_at, most_regions, region_words, srcid_bit};
ghost use Rattle.regions.specs.Rules.{covers};
ghost use Rattle.regions.specs.Masks.{Next, Passed, base_gathered, masks, none_gathered, opening, openings, served_by, serving, some_enabled, sub_gathered, with_base, with_sub};

use crate::places::{
    BASE_WORDS, CIDCFGR, COMPARTMENTS, ENABLE, END, MOST_REGIONS, PRIV, PRIVC, RDEN, REGION_WORDS,
    SRCID, START, SUBREGION_WORDS, WREN,
};
use access::{Cid, DEBUGGER};

// What the base regions that cover say, of those that were looked at.
#[derive(Clone, Copy)]
pub(crate) struct Masks {
    // The bits that some CFGR has, and every one; those that every CIDCFGR has.
    pub(crate) some: u32,
    pub(crate) every: u32,
    pub(crate) enables: u32,
    // Of the subregions that count: at SEC, that the working SEC of all is 1; at PRIV, that the working PRIV of all is.
    pub(crate) secure: u32,
    pub(crate) privileged: u32,
    // For the rights of all, the SRCIDs of those that enable reads, from bit 0; of all that count, from bit 8; of those that enable
    // writes, from bit 16. For one asking, bit 0 where some count, and the bits that CFGR has of those that serve it.
    pub(crate) opens: u32,
}

// The SRCIDs that serve a compartment, where they lie in CFGR: those that have `srcid` in the bits of `mask`.
#[derive(Clone, Copy)]
pub(crate) struct Served {
    mask: u32,
    srcid: u32,
}

// Its own; every one serves the debugger.
pub(crate) fn served_by(cid: Cid) -> Served
    ensures { result ≡ served_by cid.0 }
{
    if cid.equals(DEBUGGER) {
        return Served { mask: 0, srcid: 0 };
    }
    Served {
        mask: (COMPARTMENTS - 1) << SRCID,
        srcid: cid.0 << SRCID,
    }
}

// Where none was looked at.
pub(crate) fn none_gathered() -> Masks
    ensures { result ≡ none_gathered }
{
    Masks {
        some: 0,
        every: 0xffff_ffff,
        enables: 0xffff_ffff,
        secure: 0xffff_ffff,
        privileged: 0xffff_ffff,
        opens: 0,
    }
}

// The region or subregion at p is enabled and covers the offset. Not by `reach_of`: what that takes and gives besides, a boundary, an access
// has no use for.
pub(crate) fn covers(w: &[u32], p: usize, o: u32) -> bool
    requires { p + end_at < length w.now }
    ensures { result ≡ covers w.now p o }
{
    if (w[p] >> ENABLE) % 2 != 1 {
        return false;
    }
    (w[p + START] <= o) & (o <= w[p + END])
}

fn srcid(cfgr: u32) -> Cid
    ensures { result.0 ≡ field cfgr srcid_bit 3 }
{
    Cid((cfgr >> SRCID) % COMPARTMENTS)
}

// The bits of `opens` that a subregion with this CFGR and SRCID has.
fn opening(cfgr: u32, srcid: Cid) -> u32
    requires { srcid.0 < 8 }
    ensures { result ≡ opening cfgr srcid.0 }
{
    ((cfgr >> RDEN) % 2 + 0x100 + (cfgr >> WREN) % 2 * 0x1_0000) << srcid.0
}

// What a subregion with this CFGR adds to `opens`, for the rights of all.
pub(crate) fn openings(cfgr: u32) -> u32
    ensures { result ≡ openings cfgr }
{
    opening(cfgr, srcid(cfgr))
}

// The same for one asking: CFGR where its SRCID serves, else the enable alone.
fn serving(by: Served, cfgr: u32) -> u32
    ensures { result ≡ serving by cfgr }
{
    if (cfgr & by.mask) == by.srcid {
        return cfgr;
    }
    1 << ENABLE
}

// With the words of a base region that covers.
pub(crate) fn with_base(cfgr: u32, cidcfgr: u32, m: Masks) -> Masks
    ensures { result ≡ with_base cfgr cidcfgr m }
{
    Masks {
        some: m.some | cfgr,
        every: m.every & cfgr,
        enables: m.enables & cidcfgr,
        ..m
    }
}

// With CFGR of a subregion that counts, and of its base region; opens is what it adds there. For a privileged asking PRIV is not looked at.
fn with_sub_privileged(base: u32, sub: u32, opens: u32, m: Masks) -> Masks
    ensures { result ≡ with_sub true base sub opens m }
{
    Masks {
        secure: m.secure & (sub & base),
        opens: m.opens | opens,
        ..m
    }
}

// The same, with PRIV too: the other and one field more. One function of both would be as long, and be told by `scan` too, which always wants
// PRIV.
pub(crate) fn with_sub(base: u32, sub: u32, opens: u32, m: Masks) -> Masks
    ensures { result ≡ with_sub false base sub opens m }
{
    let srcid = srcid(sub);
    Masks {
        privileged: m.privileged & (sub & ((base >> srcid.0) >> (PRIVC - PRIV))),
        ..with_sub_privileged(base, sub, opens, m)
    }
}

// With what subregion s of base region x, which covers, says. Region x is w and x here, as in the definitions. As a `&[u32; REGION_WORDS]`
// of `as_chunks` it would ask for no room, but all five contracts that ask would speak of region 0 of a part, each by a law that this is
// region x of w.
fn sub_gathered(
    w: &[u32],
    x: usize,
    s: usize,
    o: u32,
    by: Served,
    privileged: bool,
    m: Masks,
) -> Masks
    requires { (base x + region_words ≤ length w.now) × (s < 2) }
    ensures { result ≡ sub_gathered privileged (serving by) w.now x s o m }
{
    let p = REGION_WORDS * x + BASE_WORDS + SUBREGION_WORDS * s;
    if !covers(w, p, o) {
        return m;
    }
    let opens = serving(by, w[p]);
    if !privileged {
        return with_sub(w[REGION_WORDS * x], w[p], opens, m);
    }
    with_sub_privileged(w[REGION_WORDS * x], w[p], opens, m)
}

// With what base region x and its subregions say: nothing where it does not cover.
fn base_gathered(w: &[u32], x: usize, o: u32, by: Served, privileged: bool, m: Masks) -> Masks
    requires { base x + region_words ≤ length w.now }
    ensures { result ≡ base_gathered privileged (serving by) w.now x o m }
{
    let b = REGION_WORDS * x;
    if !covers(w, b, o) {
        return m;
    }
    let based = with_base(w[b], w[b + CIDCFGR], m);
    let first = sub_gathered(w, x, 0, o, by, privileged, based);
    sub_gathered(w, x, 1, o, by, privileged, first)
}

// Whether no base region is enabled, of the most that there may be. One that a guard does not have may hold anything.
pub(crate) fn none_enabled(w: &[u32]) -> bool
    requires { base most_regions ≤ length w.now }
    ensures { result ≡ not (some_enabled w.now most_regions) }
{
    let mut some = 0;
    for x in 0..MOST_REGIONS {
        some |= w[REGION_WORDS * x];
    }
    !((some >> ENABLE) % 2 == 1)
}

// The first of n base regions that covers the offset.
pub(crate) fn next_covering(w: &[u32], n: usize, o: u32) -> Option<usize>
    requires { base n ≤ length w.now }
    ensures { MatchOption result (Passed w.now o 0 n) (Next w.now o n) }
{
    (0..n).find(|&x| covers(w, REGION_WORDS * x, o))
}

// What the first n base regions say to one asking: none below `from` covers. Never inlined: in a function of its own the loop has registers
// enough for all that it gathers.
#[inline(never)]
pub(crate) fn gathered(
    w: &[u32],
    from: usize,
    n: usize,
    o: u32,
    by: Served,
    privileged: bool,
) -> Masks
    requires { (from ≤ n) × (base n ≤ length w.now) × Passed w.now o 0 from }
    ensures { result ≡ masks privileged (serving by) w.now n o }
{
    let mut m = none_gathered();
    for x in from..n {
        m = base_gathered(w, x, o, by, privileged, m);
    }
    m
}
