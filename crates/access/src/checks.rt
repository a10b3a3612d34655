#![tactic(auto, unfolding(crate::specs::Checks::answered_with, crate::specs::Checks::reached_with))]

ghost use Rattle.std.specs.Prelude.{◌≡◌};
ghost use Rattle.access.specs.Checks.{answered, reached};

use crate::{Answer, Why};

// What is tested of an event once the lent memory has its length. A test that a kind of event does not have is passed. They are answers
// beside one another, since the order in which they count is promised once, of `answer` (docs/PROMISES.md).
#[derive(Clone, Copy)]
pub struct Checks {
    // The block, guard, master, peripheral, CID and width are ones there are.
    pub present: bool,
    // The offset is a multiple of the width.
    pub aligned: bool,
    // The offset is below the window's size.
    pub inside: bool,
    // No fetch at a peripheral.
    pub fetchless: bool,
    // The offset is a register's.
    pub known: bool,
    // The rights suffice.
    pub allowed: bool,
    // The register can be read, or written.
    pub direction: bool,
    // The register is not locked whole.
    pub unlocked: bool,
}

// All passed: of an event that has no test.
pub const PASSED: Checks = Checks {
    present: true,
    aligned: true,
    inside: true,
    fetchless: true,
    known: true,
    allowed: true,
    direction: true,
    unlocked: true,
};

impl Checks {
    // Where what is asked for can be reached.
    fn reached(self, value: u32) -> Answer
        ensures { result ≡ reached self value }
    {
        if !self.known {
            return Answer::Rejected(Why::NoRegister);
        }
        if !self.allowed {
            return Answer::Refused(0);
        }
        if !self.direction {
            return Answer::Rejected(Why::NoRegister);
        }
        if !self.unlocked {
            return Answer::Rejected(Why::Locked);
        }
        Answer::Done(value)
    }

    // The answer of the first test that fails, or done with the value.
    pub fn answer(self, value: u32) -> Answer
        ensures { result ≡ answered self value }
    {
        if !self.present {
            return Answer::Rejected(Why::NoSuch);
        }
        if !self.aligned {
            return Answer::Rejected(Why::Misaligned);
        }
        if !self.inside {
            return Answer::Rejected(Why::Outside);
        }
        if !self.fetchless {
            return Answer::Rejected(Why::Fetch);
        }
        self.reached(value)
    }
}
