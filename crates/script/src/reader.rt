ghost use Rattle.std.specs.Prelude.{◌≡◌, ◌∷◌, ◌<◌, ◌≤◌, [], eqb, length, suc, OnSome};
ghost use Rattle.script.specs.Blocks.{block_line};
ghost use Rattle.script.specs.Command.{register_line};
ghost use Rattle.script.specs.Fields.{field_at, tab};
ghost use Rattle.script.specs.Numbers.{decimal_of, either_of, hex_of, operation_of};
ghost use Rattle.script.specs.Places.{last_rights, rest_at};

use crate::fields::begins;
use crate::numbers::{HEX_STEP, LETTER_STEP, decimal_at, either_at, hex_at, operation_at};
use device::{Block, Operation};
use risaf::GuardNumber;
use std::marker::Model;

// `iac` and the tab behind it.
const IAC_STEP: usize = 4;

// `rifsc` or `risaf` and the tab behind it.
const RIF_STEP: usize = 6;

// A line's fields, read one after the other: clauses see those that are not read yet. Each method that reads one is `inline`, since
// LLVM counts a call after several `?` as rare.
#[derive(Drop)]
pub(crate) struct Reader<'a> {
    line: &'a [u8],
    // Where the next field starts: past the line's end, where there is none.
    at: usize,
}

impl<'a> Model for Reader<'a> {
    ghost use Rattle.std.specs.Prelude.{ℕ, ◌≤◌, List, length, suc};
    ghost use Rattle.script.specs.Places.{rest_at};

    ghost Value = { List (List ℕ) };

    ghost view = { λ r. rest_at r.at r.line.now };

    ghost invariant = { λ r. r.at ≤ suc (length r.line.now) };
}

impl<'a> Reader<'a> {
    #[inline(always)]
    pub(crate) fn new(line: &'a [u8], at: usize) -> Reader<'a>
        requires { at ≤ suc (length line.now) }
        ensures { result ≡ rest_at at line.now }
    {
        Reader { line, at }
    }

    // Whether every field is read.
    #[inline(always)]
    pub(crate) fn is_empty(&self) -> bool
        ensures { result ≡ eqb (length self.now) 0 }
    {
        self.line.len() < self.at
    }

    #[inline(always)]
    pub(crate) fn decimal(&mut self) -> Option<u32>
        ensures value { result ≡ decimal_of (field_at self.old 0) }
        ensures next { OnSome result (self.old ≡ field_at self.old 0 ∷ self.new) }
    {
        let (value, end) = decimal_at(self.line, self.at)?;
        self.at = end + 1;
        Some(value)
    }

    #[inline(always)]
    pub(crate) fn hex(&mut self) -> Option<u32>
        ensures value { result ≡ hex_of (field_at self.old 0) }
        ensures next { OnSome result (self.old ≡ field_at self.old 0 ∷ self.new) }
    {
        let value = hex_at(self.line, self.at)?;
        self.at += HEX_STEP;
        Some(value)
    }

    #[inline(always)]
    pub(crate) fn either(&mut self, this: u8, that: u8) -> Option<bool>
        requires { (tab < this) × (tab < that) }
        ensures value { result ≡ either_of this that (field_at self.old 0) }
        ensures next { OnSome result (self.old ≡ field_at self.old 0 ∷ self.new) }
    {
        let value = either_at(self.line, self.at, this, that)?;
        self.at += LETTER_STEP;
        Some(value)
    }

    #[inline(always)]
    pub(crate) fn operation(&mut self) -> Option<Operation>
        ensures value { result ≡ operation_of (field_at self.old 0) }
        ensures next { OnSome result (self.old ≡ field_at self.old 0 ∷ self.new) }
    {
        let value = operation_at(self.line, self.at)?;
        self.at += LETTER_STEP;
        Some(value)
    }

    // s/n p/u, the last fields: secure, privileged.
    #[inline(always)]
    pub(crate) fn last_rights(&mut self) -> Option<(bool, bool)>
        ensures { result ≡ last_rights self.old }
    {
        let secure = self.either(b's', b'n')?;
        let privileged = self.either(b'p', b'u')?;
        if !self.is_empty() {
            return None;
        }
        Some((secure, privileged))
    }

    // The block of a register line, of `risaf` with the field of its number.
    #[inline(always)]
    pub(crate) fn block(&mut self) -> Option<Block>
        ensures { register_line ([] ∷ self.old) ≡ block_line result self.new }
    {
        if begins(self.line, self.at, b"rifsc\t") {
            self.at += RIF_STEP;
            return Some(Block::Rifsc);
        }
        if begins(self.line, self.at, b"iac\t") {
            self.at += IAC_STEP;
            return Some(Block::Iac);
        }
        if !begins(self.line, self.at, b"risaf\t") {
            return None;
        }
        let (guard, end) = decimal_at(self.line, self.at + RIF_STEP)?;
        self.at = end + 1;
        Some(Block::Risaf(GuardNumber(guard)))
    }
}
