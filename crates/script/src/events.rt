ghost use Rattle.std.specs.Prelude.{◌≡◌, ◌∷◌, []};
ghost use Rattle.script.specs.Command.{master_line, memory_line, peripheral_line, register_line, request_fields};

use crate::command::Command;
use crate::reader::Reader;
use access::{Cid, Kind, Request};
use device::{Block, Event, MasterAccess, MemoryAccess, PeripheralAccess, RegisterAccess};
use rifsc::{MasterNumber, PeripheralNumber};
use risaf::GuardNumber;

// offset r/w data s/n p/u, the last fields
fn request(fields: &mut Reader, block: Block) -> Option<Command>
    ensures { result ≡ request_fields block 0 fields.old }
{
    let offset = fields.hex()?;
    let write = fields.either(b'w', b'r')?;
    let value = fields.hex()?;
    let (secure, privileged) = fields.last_rights()?;
    Some(Command::Event(Event::Register(RegisterAccess {
        block,
        request: Request {
            offset,
            write,
            value,
            secure,
            privileged,
        },
    })))
}

// ---- the lines, each from the field behind its keyword on

// `reg` block offset r/w data s/n p/u
pub(crate) fn register(fields: &mut Reader) -> Option<Command>
    ensures { result ≡ register_line ([] ∷ fields.old) }
{
    let block = fields.block()?;
    request(fields, block)
}

// `per` p r/w/x s/n p/u
pub(crate) fn peripheral(fields: &mut Reader) -> Option<Command>
    ensures { result ≡ peripheral_line ([] ∷ fields.old) }
{
    let p = fields.decimal()?;
    let operation = fields.operation()?;
    let (secure, privileged) = fields.last_rights()?;
    Some(Command::Event(Event::Peripheral(PeripheralAccess {
        peripheral: PeripheralNumber(p),
        operation,
        secure,
        privileged,
    })))
}

// `mem` guard offset width r/w cid s/n p/u
pub(crate) fn memory(fields: &mut Reader) -> Option<Command>
    ensures { result ≡ memory_line ([] ∷ fields.old) }
{
    let guard = fields.decimal()?;
    let offset = fields.hex()?;
    let width = fields.decimal()?;
    let write = fields.either(b'w', b'r')?;
    let cid = fields.decimal()?;
    let (secure, privileged) = fields.last_rights()?;
    Some(Command::Event(Event::Memory(MemoryAccess {
        guard: GuardNumber(guard),
        offset,
        width,
        kind: Kind {
            cid: Cid(cid),
            write,
            privileged,
            secure,
        },
    })))
}

// `dma` master guard offset width r/w
pub(crate) fn master(fields: &mut Reader) -> Option<Command>
    ensures { result ≡ master_line ([] ∷ fields.old) }
{
    let master = fields.decimal()?;
    let guard = fields.decimal()?;
    let offset = fields.hex()?;
    let width = fields.decimal()?;
    let write = fields.either(b'w', b'r')?;
    if !fields.is_empty() {
        return None;
    }
    Some(Command::Event(Event::Master(MasterAccess {
        master: MasterNumber(master),
        guard: GuardNumber(guard),
        offset,
        width,
        write,
    })))
}
