ghost use Rattle.std.specs.Prelude.{◌≡◌};
ghost use Rattle.regions.specs.Verdict.{reason_number, rule_number};

// The rule that governs an offset.
#[derive(Clone, Copy)]
pub enum Rule {
    Default,
    Base,
    Subregion,
}

// The test of a rule that an access fails.
#[derive(Clone, Copy)]
pub enum Reason {
    Security,
    Privilege,
    // Or the direction.
    Compartment,
}

// The rule that governs, and the first of its tests that fails: none where the access is granted.
#[derive(Clone, Copy)]
pub struct Verdict {
    pub rule: Rule,
    pub reason: Option<Reason>,
}

// Numbers by methods of the definitions' name, not by From, which would be the same match with a law besides.

impl Rule {
    // Its number in document 01's table, the value of a granted access.
    pub fn number(self) -> u32
        ensures { result ≡ rule_number self }
    {
        match self {
            Rule::Default => 0,
            Rule::Base => 1,
            Rule::Subregion => 2,
        }
    }
}

impl Reason {
    // Its number in document 01's table, the value of a refused access.
    pub fn number(self) -> u32
        ensures { result ≡ reason_number self }
    {
        match self {
            Reason::Security => 1,
            Reason::Privilege => 2,
            Reason::Compartment => 3,
        }
    }
}
