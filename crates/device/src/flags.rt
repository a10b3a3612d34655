// The registers of the IAC in the state's memory, and the line and the count that are kept there.
ghost use Rattle.std.specs.Prelude.{◌≡◌, ◌≤◌};
ghost use Rattle.iac.specs.Contents.{held_of, stored, with_held, with_word};
ghost use Rattle.iac.specs.Held.{added, held, with_count};
ghost use Rattle.iac.specs.OneWord.{kept};
ghost use Rattle.iac.specs.Registers.{row_of};
ghost use Rattle.device.specs.Layout.{state_of};
ghost use Rattle.device.specs.State.{flagged, with_iac};

use crate::layout::{COUNT, IER, ISR, LINE, STATE_WORDS};
use crate::part_words::{bit_in, store_in, word_in};
use access::Flag;
use iac::{Held, Register};

// The word stored for a register: for ICR the flags that it clears.
pub(crate) fn load_word(state: &[u32; STATE_WORDS], reg: Register) -> u32
    ensures { result ≡ stored (state_of state.now).iac reg }
{
    match reg {
        Register::Ier(x) => word_in(&state[IER..ISR], x),
        Register::Isr(x) => word_in(&state[ISR..LINE], x),
        Register::Icr(x) => word_in(&state[ISR..LINE], x),
        Register::Iisr(_) => 0,
    }
}

// ---- the line and the count

// Adds the change in the fresh count to the stored one, modulo 256.
fn recount(state: &mut [u32; STATE_WORDS], before: u32, after: u32)
    requires { (before ≤ 32) × (after ≤ 32) }
    ensures { state_of state.new ≡ with_iac (state_of state.old) (with_held (state_of state.old).iac (with_count (held_of (state_of state.old).iac) (added (state_of state.old).iac.count before after))) }
{
    let held = Held {
        line: state[LINE],
        count: state[COUNT],
    };
    let next = held.with_count((held.count % 256 + 256 - before + after) % 256);
    state[LINE] = next.line;
    state[COUNT] = next.count;
}

// Keeps both where a word becomes another; other is the other word of its index. Where no named bit changes they are not looked at.
fn keep(state: &mut [u32; STATE_WORDS], named: u32, other: u32, old: u32, new: u32)
    ensures { state_of state.new ≡ with_iac (state_of state.old) (with_held (state_of state.old).iac (kept named other old new (held_of (state_of state.old).iac))) }
{
    if words::masked(old, named) != words::masked(new, named) {
        let before = iac::fresh(named, old, other);
        let after = iac::fresh(named, new, other);
        recount(state, before, after);
    }
}

// ---- a word rewritten: old is stored, and named are the bits that are

pub(crate) fn rewrite(state: &mut [u32; STATE_WORDS], reg: Register, named: u32, old: u32, new: u32)
    requires { (named ≡ (row_of reg).named) × (old ≡ stored (state_of state.old).iac reg) }
    ensures { state_of state.new ≡ with_iac (state_of state.old) (held (state_of state.old).iac (with_word (state_of state.old).iac reg new)) }
{
    match reg {
        Register::Ier(x) => {
            store_in(&mut state[IER..ISR], x, new);
            let isr = word_in(&state[ISR..LINE], x);
            keep(state, named, isr, old, new);
        }
        Register::Isr(_) => {}
        Register::Icr(x) => {
            store_in(&mut state[ISR..LINE], x, new);
            let ier = word_in(&state[IER..ISR], x);
            keep(state, named, ier, old, new);
        }
        Register::Iisr(_) => {}
    }
}

// ---- a flag raised

// Raises a flag, in the word that has its bit. Where there is no such flag, or it is set already, nothing else is looked at.
pub(crate) fn raise(state: &mut [u32; STATE_WORDS], flag: Flag)
    ensures { state_of state.new ≡ flagged flag (state_of state.old) }
{
    if iac::is_flag(flag) {
        let x = (flag.0 / 32) as usize;
        let k = flag.0 % 32;
        let isr = word_in(&state[ISR..LINE], x);
        if !words::bit_of(isr, k) {
            store_in(&mut state[ISR..LINE], x, words::with_bit(isr, k, true));
            let enabled = bit_in(&state[IER..ISR], flag.0);
            recount(state, 0, enabled as u32);
        }
    }
}
