// A batch, for C.
ghost use Rattle.std.specs.Prelude.{◌≡◌};
ghost use Rattle.access.specs.Answer.{encoded_of};
ghost use Rattle.batch.specs.Batch.{batch_answers, batch_state, batched};

use device::MemoryAccess;

// A batch of memory accesses: the answer to each at its place, and the batch's own given back.
#[unsafe(no_mangle)]
pub extern "C" fn rif_batch(state: &mut [u32], list: &[MemoryAccess], answers: &mut [u64]) -> u64
    ensures answer { result ≡ encoded_of (batched state.old list.now answers.old) }
    ensures next { state.new ≡ batch_state state.old list.now answers.old }
    ensures answers { answers.new ≡ batch_answers state.old list.now answers.old }
{
    batch::batch(state, list, answers).encoded()
}
