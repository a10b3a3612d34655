ghost use Rattle.std.specs.Prelude.{◌<◌, ◌≡◌};
ghost use Rattle.access.specs.declared.bus.Bus.TheVariants.{Ahb};
ghost use Rattle.regions.specs.Admits.{admits_security, all_if, as_heard, by_asked, by_bases, by_default, by_masks, by_regions, by_subs, defaults, open_to, with_debugger};

use crate::masks::Masks;
use crate::places::{ENABLE, PRIV, PRIVC, READS, SEC, WRITES};
use crate::verdict::Rule;
use access::Bus;

// Who passes the tests of the rule that governs an offset, in their order: security, privilege, compartment and direction. Bit c of a
// mask is CID c; what is above bit 7 means nothing.
#[derive(Clone, Copy)]
pub(crate) struct Admits {
    pub(crate) rule: Rule,
    pub(crate) secure: bool,
    pub(crate) nonsecure: bool,
    // The compartments that fail where unprivileged.
    pub(crate) closed: u32,
    pub(crate) reads: u32,
    pub(crate) writes: u32,
}

// All compartments; the debugger's, which passes every compartment test; those that rule 0 admits on AXI.
const ALL: u32 = 0xff;

const DEBUGGERS: u32 = 0x80;

const DEFAULTS: u32 = 0x82;

// The compartments that rule 0 admits.
pub(crate) fn defaults(bus: Bus) -> u32
    ensures { result ≡ defaults bus }
{
    match bus {
        Bus::Axi => DEFAULTS,
        Bus::Ahb => ALL,
    }
}

// Rule 0.
pub(crate) fn by_default(bus: Bus) -> Admits
    ensures { result ≡ by_default bus }
{
    let compartments = defaults(bus);
    Admits {
        rule: Rule::Default,
        secure: true,
        nonsecure: false,
        closed: ALL,
        reads: compartments,
        writes: compartments,
    }
}

// Rule 1.
fn by_bases(m: Masks) -> Admits
    ensures { result ≡ by_bases m }
{
    Admits {
        rule: Rule::Base,
        secure: (m.every >> SEC) % 2 == 1,
        nonsecure: !((m.some >> SEC) % 2 == 1),
        closed: m.some >> PRIVC,
        reads: m.enables | DEBUGGERS,
        writes: (m.enables >> WRITES) | DEBUGGERS,
    }
}

// The compartments of a mask, and the debugger's where there are any.
fn with_debugger(mask: u32) -> u32
    ensures { result ≡ with_debugger mask }
{
    if mask == 0 {
        return 0;
    }
    mask | DEBUGGERS
}

// All compartments, or none.
fn all_if(b: bool) -> u32
    ensures { result ≡ all_if b }
{
    if b { ALL } else { 0 }
}

// Rule 2, with the compartments that may read and write.
fn by_subs(m: Masks, reads: u32, writes: u32) -> Admits
    ensures { result ≡ by_subs m reads writes }
{
    let secure = (m.secure >> SEC) % 2 == 1;
    let closed = all_if((m.privileged >> PRIV) % 2 == 1);
    Admits {
        rule: Rule::Subregion,
        secure,
        nonsecure: !secure,
        closed,
        reads,
        writes,
    }
}

// Rule 2, or else rule 1, where some base region covers.
fn by_regions(m: Masks) -> Admits
    ensures { result ≡ by_regions m }
{
    if m.opens == 0 {
        return by_bases(m);
    }
    let reads = with_debugger((m.opens >> READS) % 0x100);
    let writes = with_debugger((m.opens >> WRITES) % 0x100);
    by_subs(m, reads, writes)
}

// The same for one asking, whose direction bit den of CFGR enables.
pub(crate) fn by_asked(m: Masks, den: u32) -> Admits
    requires { den < 32 }
    ensures { result ≡ by_asked den m }
{
    if (m.opens >> ENABLE) % 2 != 1 {
        return by_bases(m);
    }
    let open = all_if((m.opens >> den) % 2 == 1);
    by_subs(m, open, open)
}

// The same, or else rule 0: every base region that covers has its enable in CFGR.
pub(crate) fn by_masks(bus: Bus, m: Masks) -> Admits
    ensures { result ≡ by_masks bus m }
{
    if (m.some >> ENABLE) % 2 != 1 {
        return by_default(bus);
    }
    by_regions(m)
}

// All compartments as CID 0, as AHB hears them.
pub(crate) fn all_as_zero(a: Admits) -> Admits
    ensures { result ≡ as_heard Ahb a }
{
    let closed = all_if((a.closed >> 0) % 2 == 1);
    let reads = all_if((a.reads >> 0) % 2 == 1);
    let writes = all_if((a.writes >> 0) % 2 == 1);
    Admits {
        closed,
        reads,
        writes,
        ..a
    }
}

// Whether this security passes.
pub(crate) fn admits_security(a: Admits, secure: bool) -> bool
    ensures { result ≡ admits_security a secure }
{
    if secure {
        return a.secure;
    }
    a.nonsecure
}

// The compartments that pass in this direction.
pub(crate) fn open_to(a: Admits, write: bool) -> u32
    ensures { result ≡ open_to a write }
{
    if write {
        return a.writes;
    }
    a.reads
}
