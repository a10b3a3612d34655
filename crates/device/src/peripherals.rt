ghost use Rattle.std.specs.Prelude.{◌≡◌};
ghost use Rattle.device.specs.Layout.{state_of};
ghost use Rattle.device.specs.Step.{fetches, peripheral_step};

use crate::controller::load_filter;
use crate::event::{Operation, PeripheralAccess};
use crate::flags::raise;
use crate::layout::STATE_WORDS;
use access::{Answer, Flag, Why};

fn is_fetch(operation: Operation) -> bool
    ensures { result ≡ fetches operation }
{
    operation == Operation::Fetch
}

// A peripheral access.
pub(crate) fn access_peripheral(state: &mut [u32; STATE_WORDS], a: PeripheralAccess) -> Answer
    ensures answer { result ≡ (peripheral_step a (state_of state.old)).answer }
    ensures next { state_of state.new ≡ (peripheral_step a (state_of state.old)).next }
{
    let p = a.peripheral;
    if !p.exists() {
        return Answer::Rejected(Why::NoSuch);
    }
    if is_fetch(a.operation) {
        return Answer::Rejected(Why::Fetch);
    }
    if load_filter(state, p).grants(a.secure, a.privileged) {
        return Answer::Done(0);
    }
    raise(state, Flag(p.0));
    Answer::Refused(0)
}
