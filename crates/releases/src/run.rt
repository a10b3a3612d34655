// A script file, run: what its lines print is dropped, and each bad line is named on standard error.
ghost use Rattle.std.specs.Prelude.{◌<◌, ◌≤◌, length};
ghost use Rattle.stream.specs.Kept.{line_room};

use device::STATE_WORDS;
use failures::say;
use std::fs::File;
use std::io;
use std::io::{ErrorKind, Read, Write};
use std::rt::{Env, Files};
use stream::{Held, LINE_ROOM, Taken, take};

// The longest path, and the byte that ends it.
const PATH_ROOM: usize = 4096;

// How much is read at once, and room for what the lines print, which is dropped.
const BLOCK_ROOM: usize = 65_536;

// What is kept from block to block, and whether all lines so far were good: a flag, not an Option of the state, since behind a bad line the
// others are run on that state, and named too. Not `suthrain`'s memory, whose read and walk over a block write what is filled: one for both
// would take a writer and a closure for the few lines that they share.
#[derive(Drop)]
struct Script {
    state: [u32; STATE_WORDS],
    line: [u8; LINE_ROOM],
    held: Held,
    out: [u8; BLOCK_ROOM],
    good: bool,
    ghost few: { held.bytes ≤ line_room },
}

// Names a line on standard error. Where that cannot be written, there is nowhere to say so.
fn name_bad(errors: &mut impl Write, path: &[u8], number: u64) {
    let _ = errors.write_all(path);
    let _ = writeln!(errors, ": line {number} is bad");
}

impl Script {
    // Takes some of the block, at most up to a bad line.
    fn take_part(&mut self, block: &[u8]) -> Taken
        requires { 0 < length block.now }
        ensures { (0 < result.took) × (result.took ≤ length block.now) }
    {
        let taken = take(
            self.held,
            &mut self.state,
            &mut self.line,
            block,
            &mut self.out,
            0,
        );
        self.held = taken.held;
        taken
    }

    // Takes a block, and names its bad lines.
    fn take_block(&mut self, errors: &mut impl Write, path: &[u8], block: &[u8]) {
        let mut rest = block;
        while !rest.is_empty() {
            let taken = self.take_part(rest);
            if let Some(number) = taken.bad {
                name_bad(errors, path, number);
                self.good = false;
            }
            rest = &rest[taken.took..];
        }
    }

    // Reads a file to its end. A proved loop has to end, and nothing says that the file does: so it counts its turns, up to a number that no
    // run reaches. A path that is not UTF-8 names no file, since std has paths as text.
    fn read_file<R: Files>(
        &mut self,
        rt: &R,
        errors: &mut impl Write,
        path: &[u8],
    ) -> io::Result<()> {
        let name = str::from_utf8(path).map_err(|_| io::Error::from(ErrorKind::InvalidFilename))?;
        let mut file = File::open(rt, name)?;
        let mut block = [0u8; BLOCK_ROOM];
        for _ in 0..u64::MAX {
            let n = file.read(&mut block)?;
            if n == 0 {
                break;
            }
            self.take_block(errors, path, &block[..n]);
        }
        Ok(())
    }
}

// Runs the script that argument i names, from reset. The state that it leaves, if it could be read and every line was good; else it is
// said on standard error. A last line without a line feed is bad.
pub(crate) fn run<R: Env + Files>(
    rt: &R,
    errors: &mut impl Write,
    i: usize,
) -> Option<[u32; STATE_WORDS]> {
    let mut room = [0u8; PATH_ROOM];
    let n = rt.arg(i, &mut room).unwrap_or(0);
    let path = &room[..n];
    let mut state = [0u32; STATE_WORDS];
    let held = stream::start(&mut state);
    let mut script = Script {
        state,
        line: [0; LINE_ROOM],
        held,
        out: [0; BLOCK_ROOM],
        good: true,
    };
    if let Err(error) = script.read_file(rt, errors, path) {
        let _ = say(errors, path, &error);
        script.good = false;
    }
    if 0 < script.held.bytes {
        name_bad(errors, path, script.held.number);
        script.good = false;
    }
    script.good.then_some(script.state)
}
