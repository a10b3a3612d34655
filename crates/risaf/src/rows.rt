#![tactic(auto, unfolding(crate::specs::Rows::of_head, crate::specs::Rows::of_base, crate::specs::Rows::of_sub, crate::specs::Rows::row_of, crate::specs::Rows::row_at))]

ghost use Rattle.std.specs.Prelude.{◌≡◌, ◌+◌, ◌<◌, ◌≤◌};
ghost use Rattle.regions.specs.Words.{base_words, most_regions};
ghost use Rattle.risaf.specs.Rows.{Placed, base_row, head_row, of_base, of_head, of_sub, row_at, row_of, sub_row};

use crate::contents::{CR, HEAD_WORDS, IADDR, IAESR, IASR};
use crate::registers::{BaseField, Head, Register, SubField, register_at};
use regions::places::{BASE_WORDS, CIDCFGR, END, NEST, REGION_WORDS, START, SUBREGION_WORDS};

// What stops every write to a register: the guard's GLOCK, the subregion's RLOCK, or nothing. A column of the table: as an Option each row
// of it would say `Some` and be no plainer.
#[derive(Clone, Copy)]
pub enum Lock {
    Glock,
    Rlock,
    Never,
}

// How a write changes the word: not at all, the named bits taken, set by 1, cleared by 1, the start or the end of a granule, or as a
// subregion's CFGR.
#[derive(Clone, Copy)]
pub enum Form {
    Kept,
    Taken,
    SetByOne,
    ClearedByOne,
    GranuleStart,
    GranuleEnd,
    SubregionCfgr,
}

// A register's row of the table: all that is fixed of it. Its flags are no kind between them: each says the same in every
// row, as the paper's table does, which has read-only and how a write changes the word apart.
#[derive(Clone, Copy)]
pub struct Row {
    // Not write-only, not read-only.
    pub readable: bool,
    pub writable: bool,
    // Needs secure and privileged to read too.
    pub guarded: bool,
    // Can be delegated.
    pub delegable: bool,
    pub lock: Lock,
    pub form: Form,
    pub named: u32,
    // Where its word lies among the guard's, and CFGR of its base region, CFGR and NEST of its subregion.
    pub place: usize,
    pub base: usize,
    pub sub: usize,
    pub nest: usize,
}

const ALL: u32 = 0xffff_ffff;

// Of a register that is none of a region's: no region's words are looked at, so any will do.
fn head_row(
    readable: bool,
    writable: bool,
    guarded: bool,
    lock: Lock,
    form: Form,
    named: u32,
    place: usize,
) -> Row
    ensures { result ≡ head_row readable writable guarded lock form named place }
{
    Row {
        readable,
        writable,
        guarded,
        delegable: false,
        lock,
        form,
        named,
        place,
        base: 0,
        sub: 0,
        nest: 0,
    }
}

// The places of a region and a subregion are asked for, here and below: a type that holds them would need a constructor and two readers,
// and no public function asks for them.
fn base_row(x: usize, form: Form, named: u32, field: usize) -> Row
    requires { (x < most_regions) × (field < base_words) }
    ensures { result ≡ base_row x form named field }
{
    let base = HEAD_WORDS + REGION_WORDS * x;
    Row {
        readable: true,
        writable: true,
        guarded: false,
        delegable: false,
        lock: Lock::Glock,
        form,
        named,
        place: base + field,
        base,
        sub: 0,
        nest: 0,
    }
}

fn sub_row(
    x: usize,
    s: usize,
    delegable: bool,
    lock: Lock,
    form: Form,
    named: u32,
    field: usize,
) -> Row
    requires { (x < most_regions) × (s < 2) × (field < base_words) }
    ensures { result ≡ sub_row x s delegable lock form named field }
{
    let sub = HEAD_WORDS + (REGION_WORDS * x + BASE_WORDS + SUBREGION_WORDS * s);
    Row {
        delegable,
        lock,
        place: sub + field,
        sub,
        nest: sub + NEST,
        ..base_row(x, form, named, field)
    }
}

impl Head {
    // Columns: readable, writable, guarded, lock, form, named bits, place.
    pub(crate) fn row(self) -> Row
        ensures { result ≡ of_head self }
    {
        match self {
            Head::Cr => head_row(true, true, false, Lock::Glock, Form::SetByOne, 0x1, CR),
            Head::Iasr => head_row(true, false, true, Lock::Glock, Form::Kept, 0x3, IASR),
            Head::Iacr => head_row(
                false,
                true,
                true,
                Lock::Never,
                Form::ClearedByOne,
                0x3,
                IASR,
            ),
            Head::Iaesr => head_row(true, false, true, Lock::Glock, Form::Kept, 0xb7, IAESR),
            Head::Iaddr => head_row(true, false, true, Lock::Glock, Form::Kept, ALL, IADDR),
        }
    }
}

impl BaseField {
    // Columns: form, named bits, which of the base region's words.
    pub(crate) fn row(self, x: usize) -> Row
        requires { x < most_regions }
        ensures { result ≡ of_base x self }
    {
        match self {
            BaseField::Cfgr => base_row(x, Form::Taken, 0x00ff_0101, 0),
            BaseField::Start => base_row(x, Form::GranuleStart, ALL, START),
            BaseField::End => base_row(x, Form::GranuleEnd, ALL, END),
            BaseField::Cidcfgr => base_row(x, Form::Taken, 0x00ff_00ff, CIDCFGR),
        }
    }
}

impl SubField {
    // Columns: delegable, lock, form, named bits, which of the subregion's words.
    pub(crate) fn row(self, x: usize, s: usize) -> Row
        requires { (x < most_regions) × (s < 2) }
        ensures { result ≡ of_sub x s self }
    {
        match self {
            SubField::SubCfgr => sub_row(x, s, true, Lock::Rlock, Form::SubregionCfgr, 0x3373, 0),
            SubField::SubStart => sub_row(x, s, true, Lock::Rlock, Form::GranuleStart, ALL, START),
            SubField::SubEnd => sub_row(x, s, true, Lock::Rlock, Form::GranuleEnd, ALL, END),
            SubField::Nest => sub_row(x, s, false, Lock::Glock, Form::Taken, 0x74, NEST),
        }
    }
}

// The table of registers.
fn row_of(reg: Register) -> Row
    requires { Placed reg }
    ensures { result ≡ row_of reg }
{
    match reg {
        Register::OfHead(head) => head.row(),
        Register::OfBase(x, field) => field.row(x),
        Register::OfSub(x, s, field) => field.row(x, s),
    }
}

// The row of the register at an offset that is a multiple of 4, of a guard with n base regions.
pub fn row_at(n: usize, offset: u32) -> Option<Row>
    ensures { result ≡ row_at n offset }
{
    let reg = register_at(n, offset)?;
    Some(row_of(reg))
}
