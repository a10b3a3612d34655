#![tactic(auto, unfolding(crate::specs::Port::accessed, crate::specs::Port::accessed_at, crate::specs::Port::read_answer, crate::specs::Port::read_at, crate::specs::Port::read_of))]

ghost use Rattle.std.specs.Prelude.{◌≡◌, cond};
ghost use Rattle.words.specs.Bit.{field, less, word};
ghost use Rattle.rifsc.specs.Port.{accessed, accessed_at, answer_of, attr_bits, read_answer, read_of, takes};

use crate::Register;
use crate::masters::{MCID_AT, MCID_WIDE};
use crate::registers::{ATTR_FLAGS, ATTR_NAMED, DAPCID, GLOCK, Row};
use access::{Accessed, Answer, Checks, DEBUGGER, PASSED, Request, Why};

// What an access to a register needs of the controller, by value.
#[derive(Clone, Copy)]
pub struct Seen {
    // The register is locked whole.
    pub locked: bool,
    // RCFGLOCKR and SECCFGR of the register's index.
    pub rlock: u32,
    pub sec: u32,
    // The register's own word.
    pub word: u32,
}

// Of some bits those that a write may change: those whose SEC is 1 only if it is secure.
fn unless_sec(bits: u32, sec: u32, secure: bool) -> u32
    ensures { result ≡ cond secure bits (less 32 bits sec) }
{
    if secure {
        return bits;
    }
    words::without(bits, sec)
}

// The bits that a write to ATTR takes: MCID 7 leaves MCID as it was.
fn attr_taken(value: u32) -> u32
    ensures { result ≡ attr_bits value }
{
    if words::field_of(value, MCID_AT, MCID_WIDE) == DEBUGGER.0 {
        return ATTR_FLAGS;
    }
    ATTR_NAMED
}

// The bits that a write to a register with this row takes. Of lock bits only those that are 1.
fn taken(reg: Register, row: Row, v: Seen, value: u32, secure: bool) -> u32
    ensures { result ≡ word 32 (takes reg row v value secure) }
{
    match reg {
        Register::Cr => words::masked(value, row.named),
        Register::Seccfgr(_) => words::without(row.named, v.rlock),
        Register::Privcfgr(_) => unless_sec(words::without(row.named, v.rlock), v.sec, secure),
        Register::Rcfglockr(_) => words::masked(value, row.named),
        Register::Rimccr => words::united(DAPCID, words::masked(value, GLOCK)),
        Register::Attr(_) => attr_taken(value),
        Register::Ppsr(_) => 0,
    }
}

impl Row {
    // The answer to a read of a register with this row, if there is one, and this word. Any read is allowed, so that only the offset counts.
    pub fn read(row: Option<Self>, word: u32, offset: u32) -> Answer
        ensures { result ≡ read_answer row word offset }
    {
        if offset % 4 != 0 {
            return Answer::Rejected(Why::Misaligned);
        }
        let Some(row) = row else {
            return Answer::Rejected(Why::NoRegister);
        };
        Answer::Done(words::united(words::masked(word, row.named), row.fixed))
    }
}

impl Seen {
    // The answer to an access to a register with this row.
    fn answer(self, row: Row, q: Request) -> Answer
        ensures { result ≡ answer_of row self.locked self.word q }
    {
        if !q.write {
            return Row::read(Some(row), self.word, q.offset);
        }
        let write = Checks {
            aligned: q.offset % 4 == 0,
            allowed: q.privileged & (q.secure | !row.secure),
            direction: row.writable,
            unlocked: !self.locked,
            ..PASSED
        };
        write.answer(0)
    }

    // An access to a register with this row. A write that is done leaves another word.
    fn accessed(mut self, reg: Register, row: Row, q: Request) -> Accessed<Seen>
        ensures { result ≡ accessed reg row self q }
    {
        let answer = self.answer(row, q);
        if q.write
            && let Answer::Done(_) = answer
        {
            let taken = taken(reg, row, self, q.value, q.secure);
            self.word = words::merge(self.word, q.value, taken);
        }
        Accessed { next: self, answer }
    }

    // An access to a register with this row, if there are such. The IAC has its own: what is answered and what is left differs, so one for both
    // would take a trait of three methods. Inline, so that what the caller knows is not tested again.
    #[inline(always)]
    pub fn access(self, reg: Option<Register>, row: Option<Row>, q: Request) -> Accessed<Seen>
        ensures { result ≡ accessed_at reg row self q }
    {
        let Some(known) = row else {
            let answer = Row::read(None, self.word, q.offset);
            return Accessed { next: self, answer };
        };
        let Some(reg) = reg else {
            let answer = self.answer(known, q);
            return Accessed { next: self, answer };
        };
        self.accessed(reg, known, q)
    }
}
