// The bits of a u32. No function asks anything of its caller.
#![tactic(auto)]

ghost use Rattle.std.specs.Prelude.{◌≡◌};
ghost use Rattle.words.specs.Bit.{bit, field, less, masked, merged, united, with_bit};

pub mod six;

pub use six::{BIT_WORDS, bit_at, word_at};

// Bit k of x: past the width there is none.
pub fn bit_of(x: u32, k: u32) -> bool
    ensures { result ≡ bit x k }
{
    if k < 32 { (x >> k) % 2 == 1 } else { false }
}

// The wide bits of x from bit at.
pub fn field_of(x: u32, at: u32, wide: u32) -> u32
    ensures { result ≡ field x at wide }
{
    if 32 <= at {
        return 0;
    }
    if 32 <= wide {
        return x >> at;
    }
    (x >> at) % (1 << wide)
}

// x's bits where mask has one.
pub fn masked(x: u32, mask: u32) -> u32
    ensures { result ≡ masked 32 x mask }
{
    x & mask
}

// x's bits where mask has none.
pub fn without(x: u32, mask: u32) -> u32
    ensures { result ≡ less 32 x mask }
{
    x & !mask
}

// old, with new's bits where mask has one.
pub fn merge(old: u32, new: u32, mask: u32) -> u32
    ensures { result ≡ merged 32 old new mask }
{
    (old & !mask) | (new & mask)
}

// The bits of x and those of y.
pub fn united(x: u32, y: u32) -> u32
    ensures { result ≡ united 32 x y }
{
    x | y
}

// x, with b as bit k: a place past the width leaves x.
pub fn with_bit(x: u32, k: u32, b: bool) -> u32
    ensures { result ≡ with_bit 32 x k b }
{
    if 32 <= k {
        return x;
    }
    if b { x | (1 << k) } else { x & !(1 << k) }
}
