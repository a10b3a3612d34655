// Memory accesses whose answer is given as it stands in memory and in C: a number goes back in a register, an Answer through memory.
// docs/PROMISES.md names both, and C calls them.
ghost use Rattle.std.specs.Prelude.{◌≡◌};
ghost use Rattle.access.specs.Answer.{encoded_of};
ghost use Rattle.device.specs.Applied.{applied_answer, applied_state};
ghost use Rattle.device.specs.Encoded.{memory_asked};
ghost use Rattle.device.specs.declared.event.Event.TheVariants.{Master};

use crate::applied::apply_memory;
use crate::controller::load_attributes;
use crate::event::{MasterAccess, MemoryAccess};
use crate::layout::STATE_WORDS;
use access::{Answer, Kind, Why};
use risaf::GuardNumber;

// The arguments come one by one, so that they stay in registers too: a Kind is eight bytes, and goes in one.
pub fn memory_encoded(
    state: &mut [u32],
    guard: GuardNumber,
    offset: u32,
    width: u32,
    kind: Kind,
) -> u64
    ensures answer { result ≡ encoded_of (applied_answer (memory_asked guard offset width kind) state.old) }
    ensures next { state.new ≡ applied_state (memory_asked guard offset width kind) state.old }
{
    let access = MemoryAccess {
        guard,
        offset,
        width,
        kind,
    };
    let answer = apply_memory(state, access);
    // Done is the value itself, and most accesses are done: no other variant is looked at.
    let Answer::Done(value) = answer else {
        return answer.encoded();
    };
    value as u64
}

// By a master, which is looked for first: where there is none, neither the guard nor the width can be a better answer.
pub fn master_encoded(state: &mut [u32], a: MasterAccess) -> u64
    ensures answer { result ≡ encoded_of (applied_answer (Master a) state.old) }
    ensures next { state.new ≡ applied_state (Master a) state.old }
{
    let Some(words) = state.as_array::<STATE_WORDS>() else {
        return Answer::Rejected(Why::WrongLength).encoded();
    };
    if !a.master.exists() {
        return Answer::Rejected(Why::NoSuch).encoded();
    }
    let kind = load_attributes(words, a.master).carried(a.write);
    memory_encoded(state, a.guard, a.offset, a.width, kind)
}
