ghost use Rattle.std.specs.Prelude.{◌≡◌, ℕ, ◌+◌, ◌<◌, ◌≤◌, List, [], length, take, OnOk, Option};
ghost use Rattle.std.specs.Io.KnownBytes.{Appends};
ghost use Rattle.response.specs.Response.{most};
ghost use Rattle.suthrain.specs.Runs.{Part, filled_by, kept_by};

use crate::memory::{Memory, OUT_ROOM};
use response::RESPONSE_MOST;
use std::io;
use std::io::Write;
use stream::take;

impl Memory {
    // Writes out what is filled.
    pub(crate) fn flush<W: Write>(&mut self, output: &mut W) -> io::Result<()>
        ensures { OnOk result (Appends (W.contents output.old) (W.contents output.new) (filled_by self.old) × (self.new ≡ record self.old { at = 0 })) }
    {
        output.write_all(&self.out[..self.at.min(OUT_ROOM)])?;
        self.at = 0;
        Ok(())
    }

    // Writes out what is filled, unless there is room for the longest text behind it.
    fn make_room<W: Write>(&mut self, output: &mut W) -> io::Result<()>
        ensures room { OnOk result (self.new.at + most ≤ length self.new.out) }
        ensures part { OnOk result (Part (kept_by self.old) (kept_by self.new) [] (W.contents output.old) (W.contents output.new) (filled_by self.old) (filled_by self.new)) }
    {
        if OUT_ROOM - RESPONSE_MOST < self.at {
            return self.flush(output);
        }
        Ok(())
    }

    // Takes as much of the block as there is room for. How much.
    fn take_part(&mut self, block: &[u8]) -> usize
        requires { (0 < length block.now) × (self.old.at + most ≤ length self.old.out) }
        ensures some { (0 < result) × (result ≤ length block.now) }
        ensures part { (x : Option (List ℕ)) → Part (kept_by self.old) (kept_by self.new) (take result block.now) x x (filled_by self.old) (filled_by self.new) }
    {
        let taken = take(
            self.held,
            &mut self.state,
            &mut self.line,
            block,
            &mut self.out,
            self.at,
        );
        self.held = taken.held;
        self.at = taken.filled;
        taken.took
    }

    // Takes a block, and writes out what is filled.
    pub(crate) fn take_block<W: Write>(&mut self, output: &mut W, block: &[u8]) -> io::Result<()>
        ensures part { OnOk result (Part (kept_by self.old) (kept_by self.new) block.now (W.contents output.old) (W.contents output.new) (filled_by self.old) []) }
        ensures emptied { OnOk result (filled_by self.new ≡ []) }
    {
        let mut rest = block;
        while !rest.is_empty() {
            self.make_room(output)?;
            let took = self.take_part(rest);
            rest = &rest[took..];
        }
        self.flush(output)
    }
}
