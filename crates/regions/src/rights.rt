ghost use Rattle.std.specs.Prelude.{false, ◌≡◌};
ghost use Rattle.regions.specs.Ahead.{ahead_in};
ghost use Rattle.regions.specs.Lent.{rights_in};
ghost use Rattle.regions.specs.Admits.{as_heard, by_masks, byte_at, byte_of, rights_from};

use crate::admits::{Admits, admits_security, all_as_zero, by_masks, open_to};
use crate::lent::enough;
use crate::masks::Masks;
use crate::scan::scanned;
use access::Bus;

// The byte of the rights word for a direction, a privilege and a security, bit c for CID c.
fn byte(a: Admits, write: bool, privileged: bool, secure: bool) -> u32
    ensures { result ≡ byte_of a write privileged secure }
{
    if !admits_security(a, secure) {
        return 0;
    }
    let open = open_to(a, write);
    if privileged {
        return open % 0x100;
    }
    (open & !a.closed) % 0x100
}

// The two bytes of a privilege and a security.
fn pair(a: Admits, privileged: bool, secure: bool) -> u32
    ensures { result ≡ rights_from a (byte_at false privileged secure) 16 }
{
    byte(a, true, privileged, secure) * 0x100 + byte(a, false, privileged, secure)
}

// The four bytes of a security.
fn half(a: Admits, secure: bool) -> u32
    ensures { result ≡ rights_from a (byte_at false false secure) 32 }
{
    pair(a, true, secure) * 0x1_0000 + pair(a, false, secure)
}

// All eight.
fn word(a: Admits) -> u64
    ensures { result ≡ rights_from a 0 64 }
{
    half(a, true) as u64 * 0x1_0000_0000 + half(a, false) as u64
}

// A stretch of offsets that have one rights word: the word, and the offset past the last of them.
#[derive(Clone, Copy)]
pub struct Stretch {
    pub rights: u64,
    pub to: u64,
}

// The rights word by what the regions say. Each bus by itself: on AXI nothing is left to be heard.
fn rights_by(bus: Bus, m: Masks) -> u64
    ensures { result ≡ rights_from (as_heard bus (by_masks bus m)) 0 64 }
{
    match bus {
        Bus::Axi => word(by_masks(Bus::Axi, m)),
        Bus::Ahb => word(all_as_zero(by_masks(Bus::Ahb, m))),
    }
}

// The stretch from an offset on, by the words of n base regions: up to a boundary of theirs that is ahead, or to `to` where that is
// nearer. Where the words are too few, no rights up to `to`.
pub fn stretch_at(bus: Bus, w: &[u32], n: usize, o: u32, to: u64) -> Stretch
    ensures rights_value { result.rights ≡ rights_in bus w.now n o }
    ensures to_value { result.to ≡ ahead_in w.now n o to }
{
    let nothing = Stretch { rights: 0, to };
    if !enough(w, n) {
        return nothing;
    }
    let s = scanned(w, n, o, to);
    Stretch {
        rights: rights_by(bus, s.masks),
        to: s.to,
    }
}

// The rights word of an offset, by the words of n base regions: 0 where they are too few.
pub fn rights_at(bus: Bus, w: &[u32], n: usize, o: u32) -> u64
    ensures { result ≡ rights_in bus w.now n o }
{
    stretch_at(bus, w, n, o, 0).rights
}
