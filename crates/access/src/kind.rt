ghost use Rattle.std.specs.Prelude.{◌≡◌};
ghost use Rattle.access.specs.Kind.{equals};

// A compartment number, CID; never a guard's or a peripheral's number.
#[repr(C)]
#[derive(Clone, Copy, PartialEq, Eq)]
pub struct Cid(pub u32);

// The largest compartment number, and the debugger's: it passes every compartment test.
pub const DEBUGGER: Cid = Cid(7);

// A kind of asking. With a CID from 0 to 7 there are 64.
#[repr(C)]
#[derive(Clone, Copy)]
pub struct Kind {
    pub cid: Cid,
    pub write: bool,
    pub privileged: bool,
    pub secure: bool,
}

impl Cid {
    // As derived, with the promise that the definitions speak of.
    pub fn equals(self, other: Cid) -> bool
        ensures { result ≡ equals self other }
    {
        self == other
    }
}
