#![tactic(auto, unfolding(crate::specs::Contents::reset))]

ghost use Rattle.std.specs.Prelude.{◌≡◌};
ghost use Rattle.iac.specs.Contents.{reset};

use words::BIT_WORDS;

// The enables and the flags as stored, and the words that keep the line and the count of flags set and enabled: whole words. Not
// with a Held in it: the definitions of its words, and the state's layout, have each by itself.
#[derive(Clone, Copy)]
pub struct Iac {
    pub ier: [u32; BIT_WORDS],
    pub isr: [u32; BIT_WORDS],
    // Bit 0.
    pub line: u32,
    // Bits 7:0.
    pub count: u32,
}

impl Iac {
    pub fn reset() -> Self
        ensures { result ≡ reset }
    {
        Iac {
            ier: [0; BIT_WORDS],
            isr: [0; BIT_WORDS],
            line: 0,
            count: 0,
        }
    }
}
