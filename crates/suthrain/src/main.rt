// The program: a script on standard input, answers and maps on standard output, as README.md says.
#![tactic(auto)]

mod blocks;
mod memory;

ghost use Rattle.std.specs.Prelude.{IfOk, IsTrue, OnOk};
ghost use Rattle.std.specs.Io.KnownBytes.{IsAtEnd};
ghost use Rattle.stream.specs.Kept.{kept_at_start};
ghost use Rattle.suthrain.specs.Runs.{Step, Transcribed, kept_by};

use failures::say;
use memory::{Memory, OUT_ROOM};
use std::env::FillError;
use std::io;
use std::io::{Read, Write};
use std::rt::Env;
use stream::{Held, LINE_ROOM};

// How much is read at once.
const BLOCK_ROOM: usize = 65_536;

// Reads and takes block by block until the input ends or cannot be read, which is said on standard error. Whether that is the whole input;
// an error is that of the output, which could not be written. A proved loop has to end, and nothing says that the input does: so it counts
// its turns, up to a number that no run reaches.
fn read_all<R: Read, W: Write>(
    memory: &mut Memory,
    input: &mut R,
    output: &mut W,
    errors: &mut impl Write,
) -> io::Result<bool>
    ensures step { OnOk result (Step (kept_at_start memory.old.line memory.old.state) (kept_by memory.new) (R.remaining input.old) (R.remaining input.new)
        (W.contents output.old) (W.contents output.new)) }
    ensures end { IfOk result (λ whole. IsTrue whole → IsAtEnd (R.remaining input.new)) }
{
    let mut block = [0u8; BLOCK_ROOM];
    memory.held = stream::start(&mut memory.state);
    memory.at = 0;
    for _ in 0..u64::MAX {
        match input.read(&mut block) {
            Ok(0) => return Ok(true),
            Ok(n) => memory.take_block(output, &block[..n])?,
            Err(error) => {
                let _ = say(errors, b"standard input", &error);
                return Ok(false);
            }
        }
    }
    Ok(false)
}

// Reads the input to its end, and prints its transcript. Whether all of it could be read; an error is that of the output.
fn run<R: Read, W: Write>(
    memory: &mut Memory,
    input: &mut R,
    output: &mut W,
    errors: &mut impl Write,
) -> io::Result<bool>
    ensures transcribed { OnOk result (Transcribed (R.remaining input.old) (R.remaining input.new) (W.contents output.old) (W.contents output.new) memory.old.state) }
    ensures end { IfOk result (λ whole. IsTrue whole → IsAtEnd (R.remaining input.new)) }
{
    let whole = read_all(memory, input, output, errors)?;
    memory.at = stream::finish(memory.held, &mut memory.out, 0);
    memory.flush(output)?;
    Ok(whole)
}

// It gives no error: the exit status is 0 on every input (docs/DECISIONS.md). Where standard error cannot be written, there is nowhere to say
// so.
fn main(rt: HostRuntime) {
    let mut errors = rt.stderr();
    let Err(FillError::NotPresent) = rt.arg(1, &mut []) else {
        let _ = errors.write_all(
            b"usage: suthrain < script\nIt reads a script of register writes and accesses, and prints answers and maps.\n",
        );
        return;
    };
    let mut memory = Memory {
        state: [0; device::STATE_WORDS],
        line: [0; LINE_ROOM],
        held: Held {
            bytes: 0,
            number: 1,
        },
        out: [0; OUT_ROOM],
        at: 0,
    };
    let mut input = rt.stdin();
    let mut output = rt.stdout();
    if let Err(error) = run(&mut memory, &mut input, &mut output, &mut errors) {
        let _ = say(&mut errors, b"standard output", &error);
    }
}
