//! What takes the text of replies: a writer, which may fail, or nothing.

ghost use Rattle.std.specs.Prelude.{ℕ, List, Option, OnOk, OnErr};
ghost use Rattle.std.specs.Io.KnownBytes.{Appends};
ghost use Rattle.text_output.specs.Output.{AppendsFront};

use std::io::Write;
use text_output::{WriteFailed, write_whole};

/// Takes text, whole or up to a failure.
pub trait Takes {
    /// The bytes that it holds, where they are known.
    ghost contents: { Self → Option (List ℕ) };

    /// That it may fail to take a text.
    ghost may_fail: { Type 0 };

    /// Takes a text. After an error it took a prefix of the text, and not all of it.
    fn take_text(&mut self, text: &[u8]) -> Result<(), WriteFailed>
        ensures ok { OnOk result (Appends (contents self.old) (contents self.new) text.now) }
        ensures err { OnErr result (AppendsFront (contents self.old) (contents self.new) text.now) }
        ensures fails { OnErr result may_fail };
}

impl<W: Write> Takes for W {
    ghost use Rattle.std.specs.Prelude.{⊤};

    ghost contents = { λ writer. W.contents writer };

    ghost may_fail = { ⊤ };

    fn take_text(&mut self, text: &[u8]) -> Result<(), WriteFailed> {
        write_whole(self, text)
    }
}

/// Drops all text, and never fails.
#[derive(Clone, Copy, Debug)]
pub struct Nowhere;

impl Takes for Nowhere {
    ghost use Rattle.std.specs.Prelude.{None};

    ghost contents = { λ _. None };

    ghost may_fail = { ⊥ };

    fn take_text(&mut self, _text: &[u8]) -> Result<(), WriteFailed> {
        Ok(())
    }
}
