ghost use Rattle.std.specs.Prelude.{◌≡◌, ◌≤◌, cond, length};
ghost use Rattle.access.specs.Kind.{debugger};
ghost use Rattle.regions.specs.Lent.{decided_in};
ghost use Rattle.regions.specs.Rules.{is_default, reason_of, tests0};
ghost use Rattle.regions.specs.Admits.{by_asked, governed, tests_of, verdict_of};
ghost use Rattle.regions.specs.Masks.{Passed, masks, served_by, serving};
ghost use Rattle.regions.specs.Words.{base, most_regions, rden_bit, wren_bit};

use crate::admits::{Admits, admits_security, by_asked, defaults, open_to};
use crate::lent::enough;
use crate::masks::{gathered, next_covering, none_enabled, served_by};
use crate::places::{MOST_REGIONS, RDEN, REGION_WORDS, WREN};
use crate::verdict::{Reason, Rule, Verdict};
use access::{Bus, DEBUGGER, Kind};

// The first test that a kind of asking fails.
fn reason(a: Admits, k: Kind) -> Option<Reason>
    requires { k.cid.0 ≤ debugger.0 }
    ensures { result ≡ reason_of (tests_of a k) }
{
    let cid = k.cid.0;
    if !admits_security(a, k.secure) {
        return Some(Reason::Security);
    }
    if !k.privileged & ((a.closed >> cid) % 2 == 1) {
        return Some(Reason::Privilege);
    }
    if (open_to(a, k.write) >> cid) % 2 == 1 {
        return None;
    }
    Some(Reason::Compartment)
}

// The verdict on a kind of asking. That its CID is one is asked of each function here: a type for that would be made in `decide` alone, and
// opened in each for the shift by it, so no plainer.
fn judged(a: Admits, k: Kind) -> Verdict
    requires { k.cid.0 ≤ debugger.0 }
    ensures { result ≡ verdict_of a k }
{
    let reason = reason(a, k);
    Verdict {
        rule: a.rule,
        reason,
    }
}

// Whether rule 0 admits the compartment. Not `reason` of `by_default`: the must-fail edit `first` has a wrong rule 0 here.
fn is_default(bus: Bus, k: Kind) -> bool
    requires { k.cid.0 ≤ debugger.0 }
    ensures { result ≡ is_default bus k }
{
    (defaults(bus) >> k.cid.0) % 2 == 1
}

// The first test of rule 0 that a kind of asking fails.
fn default_reason(bus: Bus, k: Kind) -> Option<Reason>
    requires { k.cid.0 ≤ debugger.0 }
    ensures { result ≡ reason_of (tests0 bus k) }
{
    if !k.secure {
        return Some(Reason::Security);
    }
    if !k.privileged {
        return Some(Reason::Privilege);
    }
    if is_default(bus, k) {
        return None;
    }
    Some(Reason::Compartment)
}

// The verdict of rule 1 or 2. None of the base regions below `first` covers.
fn by_regions(w: &[u32], first: usize, n: usize, o: u32, k: Kind) -> Verdict
    requires { (first ≤ n) × (base n ≤ length w.now) × Passed w.now o 0 first × (k.cid.0 ≤ debugger.0) }
    ensures { result ≡ verdict_of (by_asked (cond k.write wren_bit rden_bit) (masks k.privileged (serving (served_by k.cid.0)) w.now n o)) k }
{
    // The bit of a subregion's CFGR that enables the direction.
    let den = if k.write { WREN } else { RDEN };
    let m = gathered(w, first, n, o, served_by(k.cid), k.privileged);
    judged(by_asked(m, den), k)
}

// The same where some base region covers.
fn governed(w: &[u32], n: usize, o: u32, k: Kind) -> Option<Verdict>
    requires { (n ≤ most_regions) × (base n ≤ length w.now) × (k.cid.0 ≤ debugger.0) }
    ensures { result ≡ governed w.now n o k }
{
    if REGION_WORDS * MOST_REGIONS <= w.len() && none_enabled(w) {
        return None;
    }
    let first = next_covering(w, n, o)?;
    Some(by_regions(w, first, n, o, k))
}

// The verdict at an offset, by the words of n base regions. Too few words, or a CID over 7, are refused for the compartment: it cannot fail
// (docs/PROMISES.md), so it gives no Option.
pub fn decide(bus: Bus, w: &[u32], n: usize, o: u32, k: Kind) -> Verdict
    ensures { result ≡ decided_in bus w.now n o k }
{
    let nothing = Verdict {
        rule: Rule::Default,
        reason: Some(Reason::Compartment),
    };
    if !enough(w, n) {
        return nothing;
    }
    if DEBUGGER.0 < k.cid.0 {
        return nothing;
    }
    let heard = bus.hears(k);
    if let Some(verdict) = governed(w, n, o, heard) {
        return verdict;
    }
    Verdict {
        rule: Rule::Default,
        reason: default_reason(bus, heard),
    }
}
