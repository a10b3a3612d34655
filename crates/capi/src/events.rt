#![tactic(auto, unfolding(crate::specs::Events::asked_answer, crate::specs::Events::asked_state, crate::specs::Events::master_event, crate::specs::Events::memory_event, crate::specs::Events::peripheral_asked, crate::specs::Events::register_asked, device::specs::Applied::line_answer))]

ghost use Rattle.std.specs.Prelude.{◌≡◌, None};
ghost use Rattle.access.specs.Answer.{encoded_of};
ghost use Rattle.device.specs.Applied.{applied_answer, applied_state, line_answer};
ghost use Rattle.device.specs.declared.event.Event.TheVariants.{Reset};
ghost use Rattle.capi.specs.Events.{
  asked_answer,
  asked_state,
  master_event,
  memory_event,
  peripheral_asked,
  register_asked,
};

use crate::numbers::{block_numbered, operation_numbered};
use access::{Answer, Cid, Kind, Request, Why};
use device::{MasterAccess, PeripheralAccess, RegisterAccess};
use rifsc::{MasterNumber, PeripheralNumber};
use risaf::GuardNumber;

// The answer where a number stands for nothing: 4, but 8 comes first.
fn nothing(state: &[u32]) -> u64
    ensures { result ≡ asked_answer None state.now }
{
    if state.len() == device::STATE_WORDS {
        Answer::Rejected(Why::NoSuch).encoded()
    } else {
        Answer::Rejected(Why::WrongLength).encoded()
    }
}

#[unsafe(no_mangle)]
pub extern "C" fn rif_reset(state: &mut [u32]) -> u64
    ensures answer { result ≡ encoded_of (applied_answer Reset state.old) }
    ensures next { state.new ≡ applied_state Reset state.old }
{
    device::apply_reset(state).encoded()
}

#[unsafe(no_mangle)]
pub extern "C" fn rif_register(
    state: &mut [u32],
    block: u32,
    guard: u32,
    offset: u32,
    write: bool,
    value: u32,
    secure: bool,
    privileged: bool,
) -> u64
    ensures answer { result ≡ asked_answer (register_asked block guard offset write value secure privileged) state.old }
    ensures next { state.new ≡ asked_state (register_asked block guard offset write value secure privileged) state.old }
{
    let Some(block) = block_numbered(block, guard) else {
        return nothing(state);
    };
    let request = Request {
        offset,
        write,
        value,
        secure,
        privileged,
    };
    device::apply_register(state, RegisterAccess { block, request }).encoded()
}

#[unsafe(no_mangle)]
pub extern "C" fn rif_peripheral(
    state: &mut [u32],
    peripheral: u32,
    operation: u32,
    secure: bool,
    privileged: bool,
) -> u64
    ensures answer { result ≡ asked_answer (peripheral_asked peripheral operation secure privileged) state.old }
    ensures next { state.new ≡ asked_state (peripheral_asked peripheral operation secure privileged) state.old }
{
    let Some(operation) = operation_numbered(operation) else {
        return nothing(state);
    };
    let access = PeripheralAccess {
        peripheral: PeripheralNumber(peripheral),
        operation,
        secure,
        privileged,
    };
    device::apply_peripheral(state, access).encoded()
}

#[unsafe(no_mangle)]
pub extern "C" fn rif_memory(
    state: &mut [u32],
    guard: u32,
    offset: u32,
    width: u32,
    write: bool,
    cid: u32,
    secure: bool,
    privileged: bool,
) -> u64
    ensures answer { result ≡ encoded_of (applied_answer (memory_event guard offset width write cid secure privileged) state.old) }
    ensures next { state.new ≡ applied_state (memory_event guard offset width write cid secure privileged) state.old }
{
    let kind = Kind {
        cid: Cid(cid),
        write,
        privileged,
        secure,
    };
    device::memory_encoded(state, GuardNumber(guard), offset, width, kind)
}

#[unsafe(no_mangle)]
pub extern "C" fn rif_master(
    state: &mut [u32],
    master: u32,
    guard: u32,
    offset: u32,
    width: u32,
    write: bool,
) -> u64
    ensures answer { result ≡ encoded_of (applied_answer (master_event master guard offset width write) state.old) }
    ensures next { state.new ≡ applied_state (master_event master guard offset width write) state.old }
{
    let access = MasterAccess {
        master: MasterNumber(master),
        guard: GuardNumber(guard),
        offset,
        width,
        write,
    };
    device::master_encoded(state, access)
}

// The interrupt line.
#[unsafe(no_mangle)]
pub extern "C" fn rif_line(state: &[u32]) -> u64
    ensures { result ≡ encoded_of (line_answer state.now) }
{
    device::interrupt_line(state).encoded()
}
