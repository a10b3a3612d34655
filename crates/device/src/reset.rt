ghost use Rattle.std.specs.Prelude.{cond, ◌≡◌};
ghost use Rattle.risaf.specs.Contents.{guard_words, reset as guard_reset};
ghost use Rattle.risaf.specs.Guards.{is_guard, shape_of};
ghost use Rattle.device.specs.Layout.{state_of};
ghost use Rattle.device.specs.State.{reset_state, with_guard};

use crate::blocks::{store_iac, store_rifsc};
use crate::guards::{Place, guard_start};
use crate::layout::STATE_WORDS;
use iac::Iac;
use rifsc::Rifsc;
use risaf::{GUARD_NUMBERS, GUARD_WORDS, GuardNumber, HEAD_WORDS};

// The words at reset of a guard with this granule.
fn guard_words(granule: u32) -> [u32; GUARD_WORDS]
    ensures { result ≡ guard_words (guard_reset granule) }
{
    let guard = risaf::Guard::reset(granule);
    let mut words = [0; GUARD_WORDS];
    words[HEAD_WORDS..].copy_from_slice(&guard.regions);
    words
}

// Every word of a guard its reset value, if there is one with this number.
fn reset_guard(state: &mut [u32; STATE_WORDS], guard: GuardNumber)
    ensures { state_of state.new ≡ cond (is_guard guard.0) (with_guard (state_of state.old) guard.0 (guard_reset (shape_of guard.0).granule)) (state_of state.old) }
{
    if let Some(shape) = guard.shape() {
        let start = guard_start(Place::of(shape));
        state[start..start + GUARD_WORDS].copy_from_slice(&guard_words(shape.granule));
    }
}

// Every word its reset value.
pub(crate) fn reset(state: &mut [u32; STATE_WORDS])
    ensures { state_of state.new ≡ reset_state }
{
    store_rifsc(state, Rifsc::reset());
    store_iac(state, Iac::reset());
    for n in 0..GUARD_NUMBERS {
        reset_guard(state, GuardNumber(n));
    }
}
