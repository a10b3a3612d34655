ghost use Rattle.std.specs.Prelude.{◌≡◌, MatchOption};
ghost use Rattle.stream.specs.Feeds.{IsFirstLine};
ghost use Rattle.stream.specs.Transcript.{lines_in, rest};

use memchr::memchr;

// A block's first line and what stands behind its line feed; none where there is no feed.
pub(crate) fn split_line(block: &[u8]) -> Option<(&[u8], &[u8])>
    ensures { MatchOption result (lines_in block.now ≡ rest block.now) (λ p. IsFirstLine block.now p.0.now p.1.now) }
{
    let end = memchr(b'\n', block)?;
    Some((&block[..end], &block[end + 1..]))
}
