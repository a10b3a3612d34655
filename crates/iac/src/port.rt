#![tactic(auto, unfolding(crate::specs::Port::accessed, crate::specs::Port::accessed_at, crate::specs::Port::read_answer, crate::specs::Port::read_at, crate::specs::Port::read_of, crate::specs::Port::word_written))]

ghost use Rattle.std.specs.Prelude.{◌&&◌, ◌||◌, not, ◌≡◌};
ghost use Rattle.iac.specs.Port.{accessed, accessed_at, answer_of, read_answer, word_written};

use crate::Register;
use crate::registers::{Row, iisr};
use access::{Accessed, Answer, Request, Why};

// What an access to a register needs of the IAC, by value: the register's own word, for ICR the word of ISR. A struct of one word,
// since docs/PROMISES.md promises the method `access` of it.
#[derive(Clone, Copy)]
pub struct Seen {
    pub word: u32,
}

// The word that a write leaves. IER bits with no IISR bit take no write; writing 1 to ICR clears the flag.
fn word_written(reg: Register, old: u32, value: u32) -> u32
    ensures { result ≡ word_written reg old value }
{
    match reg {
        Register::Ier(x) => words::merge(old, value, iisr(x)),
        Register::Isr(_) => old,
        Register::Icr(x) => words::without(old, words::masked(value, iisr(x))),
        Register::Iisr(_) => old,
    }
}

impl Row {
    // The rights suffice, to read or to write.
    fn admits(self, q: Request) -> bool
        ensures { result ≡ (not self.guarded || q.secure && q.privileged) }
    {
        !self.guarded | (q.secure & q.privileged)
    }

    // The answer to a read of a register with this row, if there is one, whose stored word is old.
    pub fn read(row: Option<Self>, old: u32, q: Request) -> Answer
        ensures { result ≡ read_answer row old q }
    {
        if q.offset % 4 != 0 {
            return Answer::Rejected(Why::Misaligned);
        }
        let Some(row) = row else {
            return Answer::Rejected(Why::NoRegister);
        };
        if !row.admits(q) {
            return Answer::Refused(0);
        }
        if !row.readable {
            return Answer::Rejected(Why::NoRegister);
        }
        Answer::Done(words::united(words::masked(old, row.named), row.fixed))
    }
}

impl Seen {
    // The answer to an access to a register with this row.
    fn answer(self, row: Row, q: Request) -> Answer
        ensures { result ≡ answer_of row self.word q }
    {
        if !q.write {
            return Row::read(Some(row), self.word, q);
        }
        // One test after the other: by Checks, which was tried, a write takes 25 instructions more, and a write to ICR, which now takes 1.73
        // of C's, would miss the bar of 1.8.
        if q.offset % 4 != 0 {
            return Answer::Rejected(Why::Misaligned);
        }
        if !row.admits(q) {
            return Answer::Refused(0);
        }
        if !row.writable {
            return Answer::Rejected(Why::NoRegister);
        }
        Answer::Done(0)
    }

    // An access to a register with this row. A write that is done leaves another word.
    fn accessed(mut self, reg: Register, row: Row, q: Request) -> Accessed<Seen>
        ensures { result ≡ accessed reg row self q }
    {
        let answer = self.answer(row, q);
        if q.write
            && let Answer::Done(_) = answer
        {
            self.word = word_written(reg, self.word, q.value);
        }
        Accessed { next: self, answer }
    }

    // An access to a register with this row, if there are such. Not one with rifsc's: see there. Inline, so that what the caller knows is not
    // tested again.
    #[inline(always)]
    pub fn access(self, reg: Option<Register>, row: Option<Row>, q: Request) -> Accessed<Seen>
        ensures { result ≡ accessed_at reg row self q }
    {
        let Some(known) = row else {
            let answer = Row::read(None, self.word, q);
            return Accessed { next: self, answer };
        };
        let Some(reg) = reg else {
            let answer = self.answer(known, q);
            return Accessed { next: self, answer };
        };
        self.accessed(reg, known, q)
    }
}
