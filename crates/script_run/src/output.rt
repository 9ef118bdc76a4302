//! Lines of replies on their way to a writer, gathered in a block that is allocated once.

ghost use Rattle.std.specs.Prelude.{◌≡◌, ◌<◌, [], ◌++◌, length, IfOk, OnOk, OnErr};
ghost use Rattle.std.specs.Io.KnownBytes.{Appends};
ghost use Rattle.text_output.specs.Output.{LeavesUnwritten, AppendsFront};
ghost use Rattle.script_run.specs.Replies.{reply_line};

use super::replies::{BLOCK, Block, ROOM, push_reply_line};
use super::takers::Takes;
use arrayvec::ArrayVec;
use kernel_calls::Reply;
use std::alloc::{AllocError, Global};
use std::marker::Model;
use text_output::WriteFailed;

/// Text that waits to be written, at most 65,536 bytes of it.
#[derive(Drop)]
pub struct Output {
    block: Box<Block>,
}

impl Model for Output {
    ghost use Rattle.std.specs.Prelude.{ℕ, List};

    ghost Value = { List ℕ };

    ghost view = { λ output. output.block.value.items };
}

impl Output {
    /// An output with nothing that waits. It allocates one block, and no call allocates more.
    pub fn new(alloc: Global) -> Result<Output, AllocError>
        ensures { IfOk result (λ output. output ≡ []) }
    {
        let block = Box::new(alloc, ArrayVec::new())?;
        Ok(Output { block })
    }

    /// Puts a reply's line behind what waits. Where there may be no room for it, what waits is written
    /// first. After an error what was written is a front of what waited, and the rest of it is dropped.
    pub fn push_reply<W: Takes>(&mut self, reply: &Reply, writer: &mut W) -> Result<(), WriteFailed>
        ensures ok { OnOk result (LeavesUnwritten (W.contents writer.old) (W.contents writer.new)
            (self.old ++ reply_line reply.now) self.new) }
        ensures err { OnErr result (AppendsFront (W.contents writer.old) (W.contents writer.new) self.old) }
        ensures dropped { OnErr result (self.new ≡ []) }
        ensures fails { OnErr result W.may_fail }
    {
        if BLOCK - self.block.len() < ROOM {
            self.flush(writer)?;
        }
        push_reply_line(&mut self.block, reply);
        Ok(())
    }

    /// Writes all that waits. An error comes only where something waits; what was written is then a
    /// front of it, and the rest is dropped.
    pub fn flush<W: Takes>(&mut self, writer: &mut W) -> Result<(), WriteFailed>
        ensures empty { self.new ≡ [] }
        ensures ok { OnOk result (Appends (W.contents writer.old) (W.contents writer.new) self.old) }
        ensures err { OnErr result (AppendsFront (W.contents writer.old) (W.contents writer.new) self.old) }
        ensures waited { OnErr result (0 < length self.old) }
        ensures fails { OnErr result W.may_fail }
    {
        let written = writer.take_text(self.block.as_slice());
        self.block.clear();
        written
    }
}
