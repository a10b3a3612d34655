// The blocks by value, into the state's memory.
ghost use Rattle.std.specs.Prelude.{◌≡◌};
ghost use Rattle.device.specs.Layout.{state_of};
ghost use Rattle.device.specs.State.{with_iac, with_rifsc};

use crate::layout::{
    ATTR, COUNT, CR, IER, ISR, LINE, PRIVCFGR, RCFGLOCKR, RIMC_CR, SECCFGR, STATE_WORDS,
};
use iac::Iac;
use rifsc::Rifsc;

pub(crate) fn store_rifsc(state: &mut [u32; STATE_WORDS], r: Rifsc)
    ensures { state_of state.new ≡ with_rifsc (state_of state.old) r }
{
    state[CR] = r.cr;
    state[SECCFGR..PRIVCFGR].copy_from_slice(&r.seccfgr);
    state[PRIVCFGR..RCFGLOCKR].copy_from_slice(&r.privcfgr);
    state[RCFGLOCKR..RIMC_CR].copy_from_slice(&r.rcfglockr);
    state[RIMC_CR] = r.rimccr;
    state[ATTR..IER].copy_from_slice(&r.attr);
}

pub(crate) fn store_iac(state: &mut [u32; STATE_WORDS], i: Iac)
    ensures { state_of state.new ≡ with_iac (state_of state.old) i }
{
    state[IER..ISR].copy_from_slice(&i.ier);
    state[ISR..LINE].copy_from_slice(&i.isr);
    state[LINE] = i.line;
    state[COUNT] = i.count;
}
