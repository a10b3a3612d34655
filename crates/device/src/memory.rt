ghost use Rattle.std.specs.Prelude.{true, ◌≡◌};
ghost use Rattle.device.specs.Layout.{state_of};
ghost use Rattle.device.specs.Step.{memory_step};

use crate::flags::raise;
use crate::guards::{Place, load_faults, load_words, store_faults};
use crate::layout::STATE_WORDS;
use access::{Answer, Kind};
use risaf::{GuardNumber, HEAD_WORDS, memory_checked};

// A memory access: granted, it writes nothing.
pub(crate) fn access_memory(
    state: &mut [u32; STATE_WORDS],
    guard: GuardNumber,
    o: u32,
    width: u32,
    k: Kind,
) -> Answer
    ensures answer { result ≡ (memory_step true guard.0 o width k (state_of state.old)).answer }
    ensures next { state_of state.new ≡ (memory_step true guard.0 o width k (state_of state.old)).next }
{
    let shape = match memory_checked(guard.shape(), o, width, k) {
        Ok(shape) => shape,
        Err(why) => return Answer::Rejected(why),
    };
    let bus = shape.bus;
    let place = Place::of(shape);
    let words = load_words(state, place);
    let verdict = regions::decide(bus, &words[HEAD_WORDS..], shape.regions, o, k);
    let Some(reason) = verdict.reason else {
        return Answer::Done(verdict.rule.number());
    };
    let heard = bus.hears(k);
    let faults = load_faults(state, place).recorded(o, heard);
    store_faults(state, place, faults);
    raise(state, shape.flag);
    Answer::Refused(reason.number())
}
