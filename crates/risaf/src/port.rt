#![tactic(auto, unfolding(crate::specs::Port::accessed, crate::specs::Port::answer_of, crate::specs::Port::checks_of, crate::specs::Port::allowed_of, crate::specs::Port::delegated, crate::specs::Port::port_in, crate::specs::Port::read_of, crate::specs::Port::read_reached, crate::specs::Port::read_at, crate::specs::Port::accessed_at, crate::specs::Port::checks_none, crate::specs::Port::read_answer, crate::specs::Port::word_in, crate::specs::Rows::row_at, crate::specs::Rows::row_of))]

ghost use Rattle.std.specs.Prelude.{◌&&◌, cond, true, ◌≡◌, get_or};
ghost use Rattle.words.specs.Bit.{word};
ghost use Rattle.risaf.specs.Port.{
  accessed_at,
  answer_of,
  bit_if,
  delegated,
  locked_of,
  port_cid,
  port_in,
  read_answer,
  read_reached,
  subcfgr_written,
  word_written,
};

use crate::contents::{CR, IASR};
use crate::guards::{Shape, low_bits};
use crate::registers::{Register, register_at};
use crate::rows::{Form, Lock, Row};
use access::{Accessed, Answer, Bus, Checks, Cid, PASSED, Request, Why};
use regions::places::{COMPARTMENTS, SEC};

// What an access to a register needs of the guard.
#[derive(Clone, Copy)]
pub struct Port {
    pub glock: bool,
    pub iasr: u32,
    // CFGR of the register's base region.
    pub base: u32,
    // CFGR and NEST of its subregion.
    pub sub: u32,
    pub nest: u32,
    // The register's own word.
    pub word: u32,
}

// Bits of NEST, of a subregion's CFGR, and of IASR.
const DCEN: u32 = 2;

const DCCID: u32 = 4;

const RLOCK: u32 = 1;

pub const CAEF: u32 = 0;

// The word at a place; 0 past the end. `device` has it too: shared it would be a public function more, with edits of its own, for one line.
fn word_in(w: &[u32], at: usize) -> u32
    ensures { result ≡ get_or w.now at 0 }
{
    w.get(at).copied().unwrap_or(0)
}

// The compartment that the port always speaks as. AHB carries none. Not by `Bus::hears`, which takes a whole asking: the must-fail edit
// `first` has a wrong compartment here.
fn port_cid(bus: Bus) -> Cid
    ensures { result ≡ port_cid bus }
{
    match bus {
        Bus::Axi => Cid(1),
        Bus::Ahb => Cid(0),
    }
}

// A subregion's CFGR, START and END: with DCEN 0, secure; with DCEN 1, DCCID is the port's and secure or the base's SEC is 0.
fn delegated(bus: Bus, p: Port, secure: bool) -> bool
    ensures { result ≡ delegated bus p secure }
{
    if (p.nest >> DCEN) % 2 == 1 {
        let dccid = Cid((p.nest >> DCCID) % COMPARTMENTS);
        return dccid.equals(port_cid(bus)) & (secure | !((p.base >> SEC) % 2 == 1));
    }
    secure
}

// The rights suffice for a write.
fn may_write(bus: Bus, row: Row, p: Port, q: Request) -> bool
    ensures { result ≡ (q.privileged && cond row.delegable (delegated bus p q.secure) q.secure) }
{
    if row.delegable {
        return q.privileged & delegated(bus, p, q.secure);
    }
    q.privileged & q.secure
}

fn locked(lock: Lock, p: Port) -> bool
    ensures { result ≡ locked_of lock p }
{
    match lock {
        Lock::Glock => p.glock,
        Lock::Rlock => (p.sub >> RLOCK) % 2 == 1,
        Lock::Never => false,
    }
}

// The answer to an access to the register with this row, by Checks, which has the order of the tests. No lock stops a read.
fn answer(bus: Bus, row: Row, p: Port, q: Request) -> Answer
    ensures { result ≡ answer_of true bus row p q }
{
    let read = Checks {
        aligned: q.offset % 4 == 0,
        allowed: !row.guarded | (q.secure & q.privileged),
        direction: row.readable,
        ..PASSED
    };
    if !q.write {
        return read.answer(words::masked(p.word, row.named));
    }
    let write = Checks {
        allowed: may_write(bus, row, p, q),
        direction: row.writable,
        unlocked: !locked(row.lock, p),
        ..read
    };
    write.answer(0)
}

// The bits, but bit k only where it may be.
fn with_bit_if(bits: u32, k: u32, may: bool) -> u32
    ensures { result ≡ word 32 (bit_if bits k may) }
{
    if may {
        return bits;
    }
    words::with_bit(bits, k, false)
}

// A subregion's CFGR: RLOCK is taken only while GLOCK is 1, and SEC only of a secure write.
fn sub_cfgr_written(named: u32, p: Port, value: u32, secure: bool) -> u32
    ensures { result ≡ subcfgr_written named p value secure }
{
    let mask = with_bit_if(with_bit_if(named, RLOCK, p.glock), SEC, secure);
    words::merge(p.word, value, mask)
}

// The word that a write leaves.
fn word_written(granule: u32, row: Row, p: Port, value: u32, secure: bool) -> u32
    ensures { result ≡ word_written granule row p value secure }
{
    let form = row.form;
    match form {
        Form::Kept => p.word,
        Form::Taken => words::merge(p.word, value, row.named),
        Form::SetByOne => words::united(p.word, words::masked(value, row.named)),
        Form::ClearedByOne => words::without(p.word, words::masked(value, row.named)),
        Form::GranuleStart => words::without(value, low_bits(granule)),
        Form::GranuleEnd => words::united(value, low_bits(granule)),
        Form::SubregionCfgr => sub_cfgr_written(row.named, p, value, secure),
    }
}

impl Row {
    // The answer to a read of the register with this row among a guard's words, at an offset that is a multiple of 4.
    fn read(self, w: &[u32], q: Request) -> Answer
        ensures { result ≡ read_reached self (get_or w.now self.place 0) q }
    {
        if !(!self.guarded | (q.secure & q.privileged)) {
            return Answer::Refused(0);
        }
        if !self.readable {
            return Answer::Rejected(Why::NoRegister);
        }
        Answer::Done(words::masked(word_in(w, self.place), self.named))
    }
}

// The answer to a read, among the words of a guard of this shape, if there is one. Each kind of register goes by rows of its own, which are a
// part of the table.
pub fn read(w: &[u32], shape: Option<Shape>, q: Request) -> Answer
    ensures { result ≡ read_answer shape w.now q }
{
    let Some(shape) = shape else {
        return Answer::Rejected(Why::NoSuch);
    };
    if q.offset % 4 != 0 {
        return Answer::Rejected(Why::Misaligned);
    }
    let Some(reg) = register_at(shape.regions, q.offset) else {
        return Answer::Rejected(Why::NoRegister);
    };
    match reg {
        Register::OfHead(head) => head.row().read(w, q),
        Register::OfBase(x, field) => field.row(x).read(w, q),
        Register::OfSub(x, s, field) => field.row(x, s).read(w, q),
    }
}

impl Port {
    // Among a guard's words, for an access to the register with this row.
    pub fn at(w: &[u32], row: Row) -> Self
        ensures { result ≡ port_in w.now row }
    {
        Port {
            glock: words::bit_of(word_in(w, CR), 0),
            iasr: word_in(w, IASR),
            base: word_in(w, row.base),
            sub: word_in(w, row.sub),
            nest: word_in(w, row.nest),
            word: word_in(w, row.place),
        }
    }

    // An access to the register with this row, if there are such a guard and register. A write that is done leaves another word, a refused access
    // sets CAEF.
    pub fn access(mut self, shape: Option<Shape>, row: Option<Row>, q: Request) -> Accessed<Port>
        ensures { result ≡ accessed_at shape row self q }
    {
        let Some(shape) = shape else {
            return Accessed {
                next: self,
                answer: Answer::Rejected(Why::NoSuch),
            };
        };
        let Some(row) = row else {
            let none = Checks {
                aligned: q.offset % 4 == 0,
                known: false,
                ..PASSED
            };
            return Accessed {
                next: self,
                answer: none.answer(0),
            };
        };
        let answer = answer(shape.bus, row, self, q);
        match answer {
            Answer::Done(_) => {
                if q.write {
                    let word = word_written(shape.granule, row, self, q.value, q.secure);
                    self.word = word;
                }
            }
            Answer::Refused(_) => self.iasr = words::with_bit(self.iasr, CAEF, true),
            Answer::Rejected(_) => {}
        }
        Accessed { next: self, answer }
    }
}
