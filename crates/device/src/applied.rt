ghost use Rattle.std.specs.Prelude.{◌≡◌};
ghost use Rattle.device.specs.Applied.{applied_answer, applied_state, line_answer};
ghost use Rattle.device.specs.Layout.{state_of};
ghost use Rattle.device.specs.Step.{register_step};
ghost use Rattle.device.specs.declared.event.Event.TheVariants.{Master, Memory, Peripheral, Register, Reset};

use crate::controller::load_attributes;
use crate::event::{Block, Event, MasterAccess, MemoryAccess, PeripheralAccess, RegisterAccess};
use crate::layout::{LINE, STATE_WORDS};
use crate::memory::access_memory;
use crate::peripherals::access_peripheral;
use crate::registers::{access_guard, access_iac, access_rifsc};
use crate::reset::reset;
use access::{Answer, Why};

fn access_register(state: &mut [u32; STATE_WORDS], a: RegisterAccess) -> Answer
    ensures answer { result ≡ (register_step a.block a.request (state_of state.old)).answer }
    ensures next { state_of state.new ≡ (register_step a.block a.request (state_of state.old)).next }
{
    let RegisterAccess { block, request } = a;
    match block {
        Block::Rifsc => access_rifsc(state, request),
        Block::Iac => access_iac(state, request),
        Block::Risaf(guard) => access_guard(state, guard, request),
    }
}

// ---- each kind of event, for callers that know the kind. Each is public and takes a slice of any length, as C has it: each looks itself

pub fn apply_reset(state: &mut [u32]) -> Answer
    ensures answer { result ≡ applied_answer Reset state.old }
    ensures next { state.new ≡ applied_state Reset state.old }
{
    let Some(state) = state.as_mut_array::<STATE_WORDS>() else {
        return Answer::Rejected(Why::WrongLength);
    };
    reset(state);
    Answer::Done(0)
}

pub fn apply_register(state: &mut [u32], a: RegisterAccess) -> Answer
    ensures answer { result ≡ applied_answer (Register a) state.old }
    ensures next { state.new ≡ applied_state (Register a) state.old }
{
    let Some(state) = state.as_mut_array::<STATE_WORDS>() else {
        return Answer::Rejected(Why::WrongLength);
    };
    access_register(state, a)
}

pub fn apply_peripheral(state: &mut [u32], a: PeripheralAccess) -> Answer
    ensures answer { result ≡ applied_answer (Peripheral a) state.old }
    ensures next { state.new ≡ applied_state (Peripheral a) state.old }
{
    let Some(state) = state.as_mut_array::<STATE_WORDS>() else {
        return Answer::Rejected(Why::WrongLength);
    };
    access_peripheral(state, a)
}

pub fn apply_memory(state: &mut [u32], a: MemoryAccess) -> Answer
    ensures answer { result ≡ applied_answer (Memory a) state.old }
    ensures next { state.new ≡ applied_state (Memory a) state.old }
{
    let Some(state) = state.as_mut_array::<STATE_WORDS>() else {
        return Answer::Rejected(Why::WrongLength);
    };
    access_memory(state, a.guard, a.offset, a.width, a.kind)
}

// A memory access by a master: of the kind that its ATTR says.
pub fn apply_master(state: &mut [u32], a: MasterAccess) -> Answer
    ensures answer { result ≡ applied_answer (Master a) state.old }
    ensures next { state.new ≡ applied_state (Master a) state.old }
{
    let Some(state) = state.as_mut_array::<STATE_WORDS>() else {
        return Answer::Rejected(Why::WrongLength);
    };
    if !a.master.exists() {
        return Answer::Rejected(Why::NoSuch);
    }
    let kind = load_attributes(state, a.master).carried(a.write);
    access_memory(state, a.guard, a.offset, a.width, kind)
}

// ---- any event

// One event, applied to the state in lent memory: its answer is given back, and what it changes is changed there.
pub fn apply(state: &mut [u32], event: Event) -> Answer
    ensures answer { result ≡ applied_answer event state.old }
    ensures next { state.new ≡ applied_state event state.old }
{
    match event {
        Event::Reset => apply_reset(state),
        Event::Register(a) => apply_register(state, a),
        Event::Peripheral(a) => apply_peripheral(state, a),
        Event::Memory(a) => apply_memory(state, a),
        Event::Master(a) => apply_master(state, a),
    }
}

// The interrupt line, as it is kept: value 1 where it is up.
pub fn interrupt_line(state: &[u32]) -> Answer
    ensures { result ≡ line_answer state.now }
{
    let Some(state) = state.as_array::<STATE_WORDS>() else {
        return Answer::Rejected(Why::WrongLength);
    };
    Answer::Done(words::bit_of(state[LINE], 0) as u32)
}
