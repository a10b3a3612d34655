// The controller in the state's memory: what an access needs of it by value, and the word that it leaves.
ghost use Rattle.std.specs.Prelude.{◌≡◌};
ghost use Rattle.rifsc.specs.Contents.{is_locked, seen, stored, with_stored};
ghost use Rattle.rifsc.specs.Masters.{attributes_of};
ghost use Rattle.rifsc.specs.Peripherals.{filter_of};
ghost use Rattle.device.specs.Layout.{state_of};
ghost use Rattle.device.specs.State.{with_rifsc};

use crate::layout::{ATTR, CR, IER, PRIVCFGR, RCFGLOCKR, RIMC_CR, SECCFGR, STATE_WORDS};
use crate::part_words::{bit_in, store_in, word_in};
use rifsc::{Attributes, Filter, Lock, MasterNumber, PeripheralNumber, Register, Row, Seen};

// The word stored for a register.
pub(crate) fn stored(state: &[u32; STATE_WORDS], reg: Register) -> u32
    ensures { result ≡ stored (state_of state.now).rifsc reg }
{
    match reg {
        Register::Cr => state[CR],
        Register::Seccfgr(x) => word_in(&state[SECCFGR..PRIVCFGR], x),
        Register::Privcfgr(x) => word_in(&state[PRIVCFGR..RCFGLOCKR], x),
        Register::Rcfglockr(x) => word_in(&state[RCFGLOCKR..RIMC_CR], x),
        Register::Rimccr => state[RIMC_CR],
        Register::Attr(m) => word_in(&state[ATTR..IER], m),
        Register::Ppsr(_) => 0,
    }
}

fn is_locked(state: &[u32; STATE_WORDS], lock: Lock) -> bool
    ensures { result ≡ is_locked (state_of state.now).rifsc lock }
{
    match lock {
        Lock::Glock => words::bit_of(state[CR], 0),
        Lock::RimcLock => words::bit_of(state[RIMC_CR], 0),
        Lock::Never => false,
    }
}

// What an access to a register with this row needs.
pub(crate) fn load_seen(state: &[u32; STATE_WORDS], reg: Register, row: Row) -> Seen
    ensures { result ≡ seen (state_of state.now).rifsc reg row.lock row.index }
{
    Seen {
        locked: is_locked(state, row.lock),
        rlock: word_in(&state[RCFGLOCKR..RIMC_CR], row.index),
        sec: word_in(&state[SECCFGR..PRIVCFGR], row.index),
        word: stored(state, reg),
    }
}

// Stores a register's word.
pub(crate) fn store_register(state: &mut [u32; STATE_WORDS], reg: Register, v: u32)
    ensures { state_of state.new ≡ with_rifsc (state_of state.old) (with_stored (state_of state.old).rifsc reg v) }
{
    match reg {
        Register::Cr => state[CR] = v,
        Register::Seccfgr(x) => store_in(&mut state[SECCFGR..PRIVCFGR], x, v),
        Register::Privcfgr(x) => store_in(&mut state[PRIVCFGR..RCFGLOCKR], x, v),
        Register::Rcfglockr(x) => store_in(&mut state[RCFGLOCKR..RIMC_CR], x, v),
        Register::Rimccr => state[RIMC_CR] = v,
        Register::Attr(m) => store_in(&mut state[ATTR..IER], m, v),
        Register::Ppsr(_) => {}
    }
}

// What the filter holds of a peripheral.
pub(crate) fn load_filter(state: &[u32; STATE_WORDS], p: PeripheralNumber) -> Filter
    ensures { result ≡ filter_of (state_of state.now).rifsc p }
{
    Filter {
        sec: bit_in(&state[SECCFGR..PRIVCFGR], p.0),
        privileged: bit_in(&state[PRIVCFGR..RCFGLOCKR], p.0),
    }
}

// What is held of a master. Master 0 has no guarding peripheral.
pub(crate) fn load_attributes(state: &[u32; STATE_WORDS], m: MasterNumber) -> Attributes
    ensures { result ≡ attributes_of (state_of state.now).rifsc m }
{
    Attributes {
        attr: word_in(&state[ATTR..IER], m.0 as usize),
        sec: (m.0 == 0) | bit_in(&state[SECCFGR..PRIVCFGR], m.guarding().0),
    }
}
