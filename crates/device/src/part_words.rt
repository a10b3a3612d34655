// A part of the state's memory, by word and by bit; past its last word there is none.
ghost use Rattle.std.specs.Prelude.{◌≡◌, get_or, set};
ghost use Rattle.words.specs.Six.{bit_at};

pub(crate) fn word_in(part: &[u32], x: usize) -> u32
    ensures { result ≡ get_or part.now x 0 }
{
    part.get(x).copied().unwrap_or(0)
}

// Bit i, counted over all the words.
pub(crate) fn bit_in(part: &[u32], i: u32) -> bool
    ensures { result ≡ bit_at part.now i }
{
    words::bit_of(word_in(part, (i / 32) as usize), i % 32)
}

// By the length: get_mut is as many lines, and the check doesn't find what its contract leaves to show.
pub(crate) fn store_in(part: &mut [u32], x: usize, v: u32)
    ensures { part.new ≡ set part.old x v }
{
    if x < part.len() {
        part[x] = v;
    }
}
