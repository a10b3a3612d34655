#![tactic(auto, unfolding(crate::specs::Held::with_count))]

// The interrupt line and the count of flags set and enabled, as they are kept.
ghost use Rattle.std.specs.Prelude.{◌≡◌};
ghost use Rattle.iac.specs.Held.{fresh_of, with_count};

// The words that keep them, whole.
#[derive(Clone, Copy)]
pub struct Held {
    // Bit 0.
    pub line: u32,
    // Bits 7:0.
    pub count: u32,
}

// How many named bits are 1 in both words.
pub fn fresh(named: u32, a: u32, b: u32) -> u32
    ensures { result ≡ fresh_of named a b }
{
    u32::count_ones(words::masked(b, words::masked(a, named)))
}

impl Held {
    // With another count.
    pub fn with_count(mut self, count: u32) -> Self
        ensures { result ≡ with_count self count }
    {
        self.line = words::with_bit(self.line, 0, count != 0);
        self.count = words::merge(self.count, count, 0xff);
        self
    }
}
