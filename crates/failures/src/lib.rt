// What is said on standard error of a read or a write that failed.
#![tactic(auto)]

ghost use Rattle.std.specs.Prelude.{OnOk};
ghost use Rattle.failures.specs.Said.{Said};

use std::io;
use std::io::{Cursor, Write};

// Room for an error's text. The C library's are shorter.
const TEXT_ROOM: usize = 256;

// Says what failed, and the system's reason, without the number that std puts behind it.
pub fn say<W: Write>(errors: &mut W, what: &[u8], error: &io::Error) -> io::Result<()>
    ensures { OnOk result (Said (W.contents errors.old) (W.contents errors.new) what.now) }
{
    let mut text = Cursor::new([0u8; TEXT_ROOM]);
    write!(text, "{error}")?;
    let n = text.position() as usize;
    let text = text.into_inner();
    let whole = str::from_utf8(&text[..n.min(TEXT_ROOM)]).unwrap_or("");
    let reason = whole
        .split_once(" (os error ")
        .map_or(whole, |(reason, _)| reason);
    errors.write_all(what)?;
    writeln!(errors, ": {reason}")
}
