// What a number of a call stands for. No TryFrom: block and operation are types of `device`, which has no numbers for them.
#![tactic(auto, unfolding(crate::specs::Numbers::block_numbered, crate::specs::Numbers::operation_numbered))]

ghost use Rattle.std.specs.Prelude.{◌≡◌};
ghost use Rattle.capi.specs.Numbers.{block_numbered, operation_numbered};

use device::{Block, Operation};
use risaf::GuardNumber;

// Block 2 is the RISAF that the guard's number says.
pub(crate) fn block_numbered(block: u32, guard: u32) -> Option<Block>
    ensures { result ≡ block_numbered block guard }
{
    match block {
        0 => Some(Block::Rifsc),
        1 => Some(Block::Iac),
        2 => Some(Block::Risaf(GuardNumber(guard))),
        _ => None,
    }
}

pub(crate) fn operation_numbered(operation: u32) -> Option<Operation>
    ensures { result ≡ operation_numbered operation }
{
    match operation {
        0 => Some(Operation::Read),
        1 => Some(Operation::Write),
        2 => Some(Operation::Fetch),
        _ => None,
    }
}
