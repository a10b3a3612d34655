ghost use Rattle.std.specs.Prelude.{false, ◌≡◌, ◌%◌};
ghost use Rattle.device.specs.Layout.{state_of};
ghost use Rattle.device.specs.Step.{register_step};
ghost use Rattle.device.specs.declared.event.Block.TheVariants.{Iac, Rifsc, Risaf};

use crate::controller::{load_seen, store_register, stored};
use crate::flags::{load_word, raise, rewrite};
use crate::guards::{Place, load_words, store_word};
use crate::layout::STATE_WORDS;
use access::{Accessed, Answer, Flag, Request, Why};
use iac::Seen;
use risaf::{CAEF, GuardNumber, IASR, Port};

// The flags of a refused access to the controller's registers, and to those of the IAC.
const RIFSC_FLAG: Flag = Flag(158);

const IAC_FLAG: Flag = Flag(138);

// The three accesses end alike, in a match that stores or raises. It stays in each: what is stored and what is raised differs, so one
// function over the three would take two closures in place of three lines. A Request says by a field whether it reads, as C does, so the reads
// require it.

// A read of the controller's registers, which leaves the state.
fn read_rifsc(state: &[u32; STATE_WORDS], q: Request) -> Answer
    requires { (q.write ≡ false) × (q.offset % 4 ≡ 0) }
    ensures answer { result ≡ (register_step Rifsc q (state_of state.now)).answer }
    ensures next { state_of state.now ≡ (register_step Rifsc q (state_of state.now)).next }
{
    let Some(reg) = rifsc::register_at(q.offset) else {
        return Answer::Rejected(Why::NoRegister);
    };
    rifsc::Row::read(
        rifsc::Register::row(Some(reg)),
        stored(state, reg),
        q.offset,
    )
}

// A register access to the controller: what it needs is taken by value, and one word is stored.
pub(crate) fn access_rifsc(state: &mut [u32; STATE_WORDS], q: Request) -> Answer
    ensures answer { result ≡ (register_step Rifsc q (state_of state.old)).answer }
    ensures next { state_of state.new ≡ (register_step Rifsc q (state_of state.old)).next }
{
    if q.offset % 4 != 0 {
        return Answer::Rejected(Why::Misaligned);
    }
    if !q.write {
        return read_rifsc(state, q);
    }
    let Some(reg) = rifsc::register_at(q.offset) else {
        return Answer::Rejected(Why::NoRegister);
    };
    let row = reg.columns();
    let Accessed { answer, next } = load_seen(state, reg, row).access(Some(reg), Some(row), q);
    match answer {
        Answer::Done(_) => store_register(state, reg, next.word),
        Answer::Refused(_) => raise(state, RIFSC_FLAG),
        Answer::Rejected(_) => {}
    }
    answer
}

// A read of the registers of the IAC: refused, it raises a flag.
fn read_iac(state: &mut [u32; STATE_WORDS], q: Request) -> Answer
    requires { (q.write ≡ false) × (q.offset % 4 ≡ 0) }
    ensures answer { result ≡ (register_step Iac q (state_of state.old)).answer }
    ensures next { state_of state.new ≡ (register_step Iac q (state_of state.old)).next }
{
    let Some(reg) = iac::register_at(q.offset) else {
        return Answer::Rejected(Why::NoRegister);
    };
    let answer = iac::Row::read(iac::Register::row(Some(reg)), load_word(state, reg), q);
    if let Answer::Refused(_) = answer {
        raise(state, IAC_FLAG);
    }
    answer
}

// A register access to the IAC.
pub(crate) fn access_iac(state: &mut [u32; STATE_WORDS], q: Request) -> Answer
    ensures answer { result ≡ (register_step Iac q (state_of state.old)).answer }
    ensures next { state_of state.new ≡ (register_step Iac q (state_of state.old)).next }
{
    if q.offset % 4 != 0 {
        return Answer::Rejected(Why::Misaligned);
    }
    if !q.write {
        return read_iac(state, q);
    }
    let Some(reg) = iac::register_at(q.offset) else {
        return Answer::Rejected(Why::NoRegister);
    };
    let row = reg.columns();
    let seen = Seen {
        word: load_word(state, reg),
    };
    let Accessed { answer, next } = seen.access(Some(reg), Some(row), q);
    match answer {
        Answer::Done(_) => rewrite(state, reg, row.named, seen.word, next.word),
        Answer::Refused(_) => raise(state, IAC_FLAG),
        Answer::Rejected(_) => {}
    }
    answer
}

// A read of a guard's registers: refused, it sets CAEF and raises the guard's flag.
fn read_guard(state: &mut [u32; STATE_WORDS], guard: GuardNumber, q: Request) -> Answer
    requires { q.write ≡ false }
    ensures answer { result ≡ (register_step (Risaf guard) q (state_of state.old)).answer }
    ensures next { state_of state.new ≡ (register_step (Risaf guard) q (state_of state.old)).next }
{
    let Some(shape) = guard.shape() else {
        return Answer::Rejected(Why::NoSuch);
    };
    let place = Place::of(shape);
    let held = load_words(state, place);
    let answer = risaf::read(held, Some(shape), q);
    if let Answer::Refused(_) = answer {
        let iasr = words::with_bit(held[IASR], CAEF, true);
        store_word(state, place, IASR, iasr);
        raise(state, shape.flag);
    }
    answer
}

// A register access to a guard: what it needs of the guard is taken by value, and one word of it is stored. Where there is no register
// nothing is needed.
pub(crate) fn access_guard(state: &mut [u32; STATE_WORDS], guard: GuardNumber, q: Request) -> Answer
    ensures answer { result ≡ (register_step (Risaf guard) q (state_of state.old)).answer }
    ensures next { state_of state.new ≡ (register_step (Risaf guard) q (state_of state.old)).next }
{
    if !q.write {
        return read_guard(state, guard, q);
    }
    let Some(shape) = guard.shape() else {
        return Answer::Rejected(Why::NoSuch);
    };
    if q.offset % 4 != 0 {
        return Answer::Rejected(Why::Misaligned);
    }
    let Some(row) = risaf::row_at(shape.regions, q.offset) else {
        return Answer::Rejected(Why::NoRegister);
    };
    let place = Place::of(shape);
    let port = Port::at(load_words(state, place), row);
    let Accessed { answer, next } = port.access(Some(shape), Some(row), q);
    match answer {
        Answer::Done(_) => store_word(state, place, row.place, next.word),
        Answer::Refused(_) => {
            store_word(state, place, IASR, next.iasr);
            raise(state, shape.flag);
        }
        Answer::Rejected(_) => {}
    }
    answer
}
