// The words of one guard in the state's memory, by its place among the guards.
ghost use Rattle.std.specs.Prelude.{◌≡◌, ◌+◌, ◌*◌, ◌≤◌, ◌<◌};
ghost use Rattle.risaf.specs.Contents.{guard_size, guard_words, with_word};
ghost use Rattle.risaf.specs.Guards.{guard_count};
ghost use Rattle.risaf.specs.Memory.{faults_of, with_faults};
ghost use Rattle.device.specs.Layout.{guards_at, state_of, state_words};
ghost use Rattle.device.specs.State.{guard_at, with_guard_at};

use crate::layout::{GUARDS, STATE_WORDS};
use risaf::{Faults, GUARD_WORDS, IADDR, IAESR, IASR, Shape};

// Where one stands among the guards, in rising number. A Shape does not hold the fact: it is public, and risaf answers for any.
#[derive(Clone, Copy)]
pub(crate) struct Place {
    at: usize,
    ghost within: { at < guard_count },
}

impl Place {
    pub(crate) fn of(shape: Shape) -> Self
        requires { shape.place < guard_count }
        ensures { result.at ≡ shape.place }
    {
        Place { at: shape.place }
    }
}

// Where its words begin.
pub(crate) fn guard_start(place: Place) -> usize
    ensures { (result ≡ guards_at + guard_size * place.at) × (result + guard_size ≤ state_words) }
{
    GUARDS + GUARD_WORDS * place.at
}

// The words of the guard there.
pub(crate) fn load_words(state: &[u32; STATE_WORDS], place: Place) -> &[u32]
    ensures { result.now ≡ guard_words (guard_at (state_of state.now) place.at) }
{
    let start = guard_start(place);
    &state[start..start + GUARD_WORDS]
}

// Stores the guard's word i.
pub(crate) fn store_word(state: &mut [u32; STATE_WORDS], place: Place, i: usize, v: u32)
    requires { i < guard_size }
    ensures { state_of state.new ≡ with_guard_at (state_of state.old) place.at (with_word (guard_at (state_of state.old) place.at) i v) }
{
    state[guard_start(place) + i] = v;
}

// The fault registers.
pub(crate) fn load_faults(state: &[u32; STATE_WORDS], place: Place) -> Faults
    ensures { result ≡ faults_of (guard_at (state_of state.now) place.at) }
{
    let words = load_words(state, place);
    Faults {
        iasr: words[IASR],
        iaesr: words[IAESR],
        iaddr: words[IADDR],
    }
}

pub(crate) fn store_faults(state: &mut [u32; STATE_WORDS], place: Place, faults: Faults)
    ensures { state_of state.new ≡ with_guard_at (state_of state.old) place.at (with_faults (guard_at (state_of state.old) place.at) faults) }
{
    store_word(state, place, IASR, faults.iasr);
    store_word(state, place, IAESR, faults.iaesr);
    store_word(state, place, IADDR, faults.iaddr);
}
