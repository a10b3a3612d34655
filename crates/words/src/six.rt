// Six words that hold a bit for each peripheral, or for each flag.
ghost use Rattle.std.specs.Prelude.{◌≡◌, get_or};
ghost use Rattle.words.specs.Six.{bit_at};

use crate::bit_of;

pub const BIT_WORDS: usize = 6;

// Word x; past the last there is none. A match of words that are known becomes a table in the program's constants, where an index
// would have them copied first.
pub fn word_at(words: [u32; BIT_WORDS], x: usize) -> u32
    ensures { result ≡ get_or words x 0 }
{
    match x {
        0 => words[0],
        1 => words[1],
        2 => words[2],
        3 => words[3],
        4 => words[4],
        5 => words[5],
        _ => 0,
    }
}

// Bit i, counted over all the words.
pub fn bit_at(words: [u32; BIT_WORDS], i: u32) -> bool
    ensures { result ≡ bit_at words i }
{
    bit_of(word_at(words, (i / 32) as usize), i % 32)
}
