ghost use Rattle.std.specs.Prelude.{◌≡◌, ◌∷◌, []};
ghost use Rattle.script.specs.Fields.{fields_of};
ghost use Rattle.script.specs.Command.{command_in, command_of, map_line};

use crate::events::{master, memory, peripheral, register};
use crate::fields::{LINE_MOST, begins};
use crate::reader::Reader;
use device::Event;
use risaf::GuardNumber;

// A keyword that fields follow, and the tab behind it.
const KEYWORD_STEP: usize = 4;

// The bytes of `reset`.
const RESET_LENGTH: usize = 5;

// What a line asks for.
#[derive(Clone, Copy)]
pub enum Command {
    Event(Event),
    Map(GuardNumber),
}

// `map` guard, from the field behind the keyword on
fn map(fields: &mut Reader) -> Option<Command>
    ensures { result ≡ map_line ([] ∷ fields.old) }
{
    let guard = fields.decimal()?;
    if !fields.is_empty() {
        return None;
    }
    Some(Command::Map(GuardNumber(guard)))
}

// By the keyword, the first field.
fn by_keyword(line: &[u8]) -> Option<Command>
    ensures { result ≡ command_in (fields_of line.now) }
{
    if begins(line, 0, b"mem\t") {
        return memory(&mut Reader::new(line, KEYWORD_STEP));
    }
    if begins(line, 0, b"reg\t") {
        return register(&mut Reader::new(line, KEYWORD_STEP));
    }
    if begins(line, 0, b"per\t") {
        return peripheral(&mut Reader::new(line, KEYWORD_STEP));
    }
    if begins(line, 0, b"dma\t") {
        return master(&mut Reader::new(line, KEYWORD_STEP));
    }
    if begins(line, 0, b"map\t") {
        return map(&mut Reader::new(line, KEYWORD_STEP));
    }
    if begins(line, 0, b"reset") & (line.len() == RESET_LENGTH) {
        return Some(Command::Event(Event::Reset));
    }
    None
}

// A line's bytes before the line feed.
pub fn read_line(line: &[u8]) -> Option<Command>
    ensures { result ≡ command_of line.now }
{
    if LINE_MOST < line.len() {
        return None;
    }
    by_keyword(line)
}
