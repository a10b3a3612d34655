ghost use Rattle.std.specs.Prelude.{◌≡◌};
ghost use Rattle.iac.specs.Flags.{is_flag};

use crate::registers::FLAGS;
use access::Flag;

// There is a flag of this index.
pub fn is_flag(flag: Flag) -> bool
    ensures { result ≡ is_flag flag }
{
    words::bit_at(FLAGS, flag.0)
}
