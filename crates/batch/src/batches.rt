ghost use Rattle.std.specs.Prelude.{◌≡◌, ◌<◌, ◌&&◌, eqb, leb, length, set};
ghost use Rattle.access.specs.Answer.{encoded_of};
ghost use Rattle.batch.specs.Batch.{batch_answers, batch_state, batched};
ghost use Rattle.device.specs.Applied.{applied_answer, applied_state};
ghost use Rattle.device.specs.Layout.{state_words};
ghost use Rattle.device.specs.declared.event.Event.TheVariants.{Memory};

use access::{Answer, Why};
use device::{MemoryAccess, STATE_WORDS};

// Whether a batch is done: the state has its length, and each access a place for its answer.
fn fits(words: usize, accesses: usize, places: usize) -> bool
    ensures { result ≡ (eqb words state_words && leb accesses places) }
{
    (words == STATE_WORDS) & (accesses <= places)
}

// One access of a batch, its answer stored at place i.
fn one(state: &mut [u32], answers: &mut [u64], i: usize, a: MemoryAccess)
    requires { (length state.old ≡ state_words) × (i < length answers.old) }
    ensures { (state.new ≡ applied_state (Memory a) state.old)
        × (answers.new ≡ set answers.old i (encoded_of (applied_answer (Memory a) state.old))) }
{
    let answer = device::memory_encoded(state, a.guard, a.offset, a.width, a.kind);
    answers[i] = answer;
}

// A batch of memory accesses, one after the other: answer i is to access i. Where lent memory is of the wrong length none of them is done.
// The index goes over both lists: a zip with `iter_mut` promises nothing of what is written.
pub fn batch(state: &mut [u32], list: &[MemoryAccess], answers: &mut [u64]) -> Answer
    ensures answer { result ≡ batched state.old list.now answers.old }
    ensures next { state.new ≡ batch_state state.old list.now answers.old }
    ensures answers { answers.new ≡ batch_answers state.old list.now answers.old }
{
    if !fits(state.len(), list.len(), answers.len()) {
        return Answer::Rejected(Why::WrongLength);
    }
    for i in 0..list.len() {
        one(state, answers, i, list[i]);
    }
    Answer::Done(0)
}
