ghost use Rattle.std.specs.Prelude.{◌≡◌};
ghost use Rattle.map.specs.Fill.{used_of};
ghost use Rattle.map.specs.Part.{used_part};

use access::Why;

// The used part of lent memory, no copy: an empty part after a refusal, which document 01 asks for, and where the memory is shorter.
pub fn used_part(buffer: &[u64], filled: Result<usize, Why>) -> &[u64]
    ensures { result.now ≡ used_part buffer.now (used_of filled) }
{
    let used = filled.unwrap_or(0);
    if used <= buffer.len() {
        return &buffer[..used];
    }
    &buffer[..0]
}
