ghost use Rattle.std.specs.Prelude.{◌≡◌};
ghost use Rattle.access.specs.Answer.{encoded_of, number_of, value_of, why_number};

// Why an event is rejected: it leaves the state as it was.
#[derive(Clone, Copy)]
pub enum Why {
    Locked,
    NoRegister,
    NoSuch,
    Misaligned,
    Outside,
    Fetch,
    WrongLength,
}

// The answer to an event, in the three ways in which it can end: done, refused for want of rights, rejected. No Result: document 01's column
// "left" has three cases, and the theorems on refusals go by them.
#[derive(Clone, Copy)]
pub enum Answer {
    Done(u32),
    Refused(u32),
    Rejected(Why),
}

// Numbers by methods of that name, not by From: an answer has two, its own and the encoded one, and docs/PROMISES.md names each.

impl Why {
    fn number(self) -> u64
        ensures { result ≡ why_number self }
    {
        match self {
            Why::Locked => 2,
            Why::NoRegister => 3,
            Why::NoSuch => 4,
            Why::Misaligned => 5,
            Why::Outside => 6,
            Why::Fetch => 7,
            Why::WrongLength => 8,
        }
    }
}

impl Answer {
    // Its number in document 01's table.
    pub fn number(self) -> u64
        ensures { result ≡ number_of self }
    {
        match self {
            Answer::Done(_) => 0,
            Answer::Refused(_) => 1,
            Answer::Rejected(why) => why.number(),
        }
    }

    pub fn value(self) -> u32
        ensures { result ≡ value_of self }
    {
        match self {
            Answer::Done(value) => value,
            Answer::Refused(value) => value,
            Answer::Rejected(_) => 0,
        }
    }

    // The answer in memory and in C.
    pub fn encoded(self) -> u64
        ensures { result ≡ encoded_of self }
    {
        0x1_0000_0000 * self.number() + self.value() as u64
    }
}
