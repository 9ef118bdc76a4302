//! A session: a core, the line that has come so far, and the replies that wait to be written.

ghost use Rattle.std.specs.Prelude.{◌≡◌, ℕ, ◌+◌, ◌≤◌, ◌<◌, ◌↔◌, IsErrOf, false, List, [], ◌∷◌, ◌++◌, length, Option, take, OnOk, IfOk, IfErr, MatchOption, ◌^◌};
ghost use Rattle.std.specs.Io.KnownBytes.{Consumes, Keeps, IsAtEnd};
ghost use Rattle.process_table.specs.State.{State, open_with};
ghost use Rattle.script_run.specs.Lines.{line_of};
ghost use Rattle.text_output.specs.Output.{LeavesUnwritten};
ghost use Rattle.script_run.specs.Script.{is_malformed};
ghost use Rattle.script_run.specs.Progress.{state_after, text_after, LineFails, IsOneLine, FromReached, Reached, Stops, Finished, StopsAtLast, Ran, RanInto, EndsWhole, EndsBy, IsBeforeReading, MayEnd};

use super::faults::ScriptFault;
use super::lines::{LINE, Line, line_of};
use super::output::Output;
use super::takers::Takes;
use arrayvec::ArrayVec;
use kernel_calls::Core;
use memchr::memchr;
use std::alloc::Global;
use std::io::Read;

/// The most bytes of a script.
pub const SCRIPT_BYTES: usize = 16_777_216;

/// The progress of a script: the machine after the lines so far, and the replies not written yet.
#[derive(Drop)]
pub struct Session {
    /// The machine, after the lines so far.
    pub core: Core,
    /// The replies that are not written yet.
    pub output: Output,
    /// The bytes of the line that has not ended yet.
    pub line: ArrayVec<u8, LINE>,
    /// How many lines have ended.
    pub lines: u32,
}

impl Session {
    /// A machine of so many frames as it boots, and nothing of a script.
    pub fn boot(alloc: Global, frames: u32) -> Result<Session, ScriptFault>
        ensures size { IsErrOf result ScriptFault.BadSize ↔ (16 ≤ frames → frames ≤ 4096 → ⊥) }
        ensures early { IfErr result IsBeforeReading }
        ensures lines { IfOk result (λ session. session.lines ≡ 0) }
        ensures opened { IfOk result (λ session. (held : Option (List ℕ))
            → Reached (open_with frames) [] session held held) }
    {
        let core = Core::boot(alloc, frames)?;
        Session::of_core(alloc, core)
    }

    /// A machine as it stands, and nothing of a script.
    pub fn of_core(alloc: Global, core: Core) -> Result<Session, ScriptFault>
        ensures fault { IfErr result (λ fault. fault ≡ ScriptFault.NoMemory) }
        ensures lines { IfOk result (λ session. session.lines ≡ 0) }
        ensures begun { IfOk result (λ session. (held : Option (List ℕ)) → Reached core.state [] session held held) }
    {
        let output = Output::new(alloc)?;
        Ok(Session {
            core,
            output,
            line: ArrayVec::new(),
            lines: 0,
        })
    }

    /// Puts bytes, among them no line feed, behind those of the line that has not ended yet.
    fn keep(&mut self, piece: &[u8]) -> Result<(), ScriptFault>
        requires { self.old.lines + 1 < 2 ^ 32 }
        ensures lines { self.new.lines ≡ self.old.lines }
        ensures ok { (now : Option (List ℕ)) → IsOneLine piece.now
            → FromReached self.old now (λ begun read start. OnOk result
            (Reached begun (read ++ piece.now) self.new start now)) }
        ensures err { (now : Option (List ℕ)) → IsOneLine piece.now
            → FromReached self.old now (λ begun read start. IfErr result
            (λ fault. Stops begun (read ++ piece.now) fault self.new.output start now)) }
        ensures fault { IfErr result (λ fault. fault ≡ ScriptFault.Malformed (self.old.lines + 1)) }
    {
        match self.line.try_extend_from_slice(piece) {
            Ok(()) => Ok(()),
            Err(_) => Err(ScriptFault::Malformed {
                line: self.lines + 1,
            }),
        }
    }

    /// Ends the line with these last bytes, among them no line feed, and carries it out.
    fn end_line<W: Takes>(&mut self, piece: &[u8], writer: &mut W) -> Result<(), ScriptFault>
        requires { self.old.lines + 1 < 2 ^ 32 }
        ensures lines { OnOk result (self.new.lines ≡ self.old.lines + 1) }
        ensures ok { IsOneLine piece.now → FromReached self.old (W.contents writer.old)
            (λ begun read start. OnOk result (Reached begun (read ++ (piece.now ++ 10 ∷ [])) self.new start
            (W.contents writer.new))) }
        ensures err { IsOneLine piece.now → FromReached self.old (W.contents writer.old)
            (λ begun read start. IfErr result
            (λ fault. Stops begun (read ++ (piece.now ++ 10 ∷ [])) fault self.new.output start
            (W.contents writer.new))) }
        ensures fails { IfErr result (MayEnd W.may_fail) }
    {
        let number = self.lines + 1;
        if self.line.is_empty() {
            carry_out(&mut self.core, &mut self.output, piece, number, writer)?;
            self.lines = number;
            return Ok(());
        }
        self.keep(piece)?;
        let line = self.line.as_slice();
        carry_out(&mut self.core, &mut self.output, line, number, writer)?;
        self.line.clear();
        self.lines = number;
        Ok(())
    }

    /// Takes the next bytes of the script, and carries out each line that they end.
    fn take_lines<W: Takes>(&mut self, bytes: &[u8], writer: &mut W) -> Result<(), ScriptFault>
        requires { self.old.lines + length bytes.now + 1 < 2 ^ 32 }
        ensures lines { OnOk result (self.new.lines ≤ self.old.lines + length bytes.now) }
        ensures ok { FromReached self.old (W.contents writer.old)
            (λ begun read start. OnOk result (Reached begun (read ++ bytes.now) self.new start
            (W.contents writer.new))) }
        ensures err { FromReached self.old (W.contents writer.old)
            (λ begun read start. IfErr result
            (λ fault. Stops begun (read ++ bytes.now) fault self.new.output start (W.contents writer.new))) }
        ensures fails { IfErr result (MayEnd W.may_fail) }
    {
        let mut rest = bytes;
        while let Some((line, after)) = split_line(rest) {
            self.end_line(line, writer)?;
            rest = after;
        }
        self.keep(rest)
    }

    /// Writes the replies that wait.
    fn write_out<W: Takes>(&mut self, writer: &mut W) -> Result<(), ScriptFault>
        ensures lines { self.new.lines ≡ self.old.lines }
        ensures ok { FromReached self.old (W.contents writer.old)
            (λ begun read start. OnOk result (Reached begun read self.new start (W.contents writer.new))) }
        ensures err { FromReached self.old (W.contents writer.old)
            (λ begun read start. IfErr result
            (λ fault. Stops begun read fault self.new.output start (W.contents writer.new))) }
        ensures fails { IfErr result (MayEnd W.may_fail) }
    {
        self.output.flush(writer)?;
        Ok(())
    }

    /// Takes the next bytes of the script, carries out each line that they end, and writes the replies: a
    /// caller that waits for them before it sends more has them.
    fn feed<W: Takes>(&mut self, bytes: &[u8], writer: &mut W) -> Result<(), ScriptFault>
        requires { self.old.lines + length bytes.now + 1 < 2 ^ 32 }
        ensures lines { OnOk result (self.new.lines ≤ self.old.lines + length bytes.now) }
        ensures ok { FromReached self.old (W.contents writer.old)
            (λ begun read start. OnOk result (Reached begun (read ++ bytes.now) self.new start
            (W.contents writer.new))) }
        ensures err { FromReached self.old (W.contents writer.old)
            (λ begun read start. IfErr result
            (λ fault. Stops begun (read ++ bytes.now) fault self.new.output start (W.contents writer.new))) }
        ensures fails { IfErr result (MayEnd W.may_fail) }
    {
        self.take_lines(bytes, writer)?;
        self.write_out(writer)?;
        Ok(())
    }

    /// Carries out the last line, without a line feed, where the script has ended.
    fn finish<W: Takes>(&mut self, writer: &mut W) -> Result<(), ScriptFault>
        requires { self.old.lines + 1 < 2 ^ 32 }
        ensures ok { FromReached self.old (W.contents writer.old)
            (λ begun read start. OnOk result (Finished begun read self.new start (W.contents writer.new))) }
        ensures err { FromReached self.old (W.contents writer.old)
            (λ begun read start. IfErr result
            (λ fault. StopsAtLast begun read fault self.new.output start (W.contents writer.new))) }
        ensures fails { IfErr result (MayEnd W.may_fail) }
    {
        let line = self.line.as_slice();
        carry_out(
            &mut self.core,
            &mut self.output,
            line,
            self.lines + 1,
            writer,
        )?;
        Ok(())
    }

    /// Runs a script, and writes all replies, also those before a fault.
    pub fn run<R: Read, W: Takes>(
        &mut self,
        reader: &mut R,
        block: &mut [u8],
        writer: &mut W,
    ) -> Result<(), ScriptFault>
        requires block { 0 < length block.old }
        requires lines { self.old.lines ≡ 0 }
        ensures ok { (begun : State) → Reached begun [] self.old (W.contents writer.old) (W.contents writer.old)
            → OnOk result (EndsWhole begun (R.remaining reader.old) self.new (W.contents writer.old)
            (W.contents writer.new)) }
        ensures err { (begun : State) → Reached begun [] self.old (W.contents writer.old) (W.contents writer.old)
            → IfErr result (λ fault. (IsBeforeReading fault → ⊥)
            × EndsBy begun fault (R.remaining reader.old) (R.remaining reader.new) (W.contents writer.old)
            (W.contents writer.new)) }
        ensures fails { IfErr result (MayEnd W.may_fail) }
    {
        let ended = self.take_script(reader, block, writer);
        self.output.flush(writer)?;
        ended
    }

    /// Reads a script block by block, to its end or its limit, and carries out its lines.
    fn take_script<R: Read, W: Takes>(
        &mut self,
        reader: &mut R,
        block: &mut [u8],
        writer: &mut W,
    ) -> Result<(), ScriptFault>
        requires block { 0 < length block.old }
        requires lines { self.old.lines ≡ 0 }
        ensures ok { (begun : State) → Reached begun [] self.old (W.contents writer.old) (W.contents writer.old)
            → OnOk result (Ran begun (R.remaining reader.old) self.new (W.contents writer.old)
            (W.contents writer.new)) }
        ensures err { (begun : State) → Reached begun [] self.old (W.contents writer.old) (W.contents writer.old)
            → IfErr result (λ fault. RanInto begun fault (R.remaining reader.old)
            (R.remaining reader.new) self.new.output (W.contents writer.old) (W.contents writer.new)) }
        ensures fails { IfErr result (MayEnd W.may_fail) }
    {
        let mut total = 0;
        while total < SCRIPT_BYTES {
            let count = read_some(reader, block, SCRIPT_BYTES - total)?;
            if count == 0 {
                return self.finish(writer);
            }
            self.feed(&block[..count], writer)?;
            total += count;
        }
        let past = read_some(reader, block, 1)?;
        if past > 0 {
            return Err(ScriptFault::TooLong);
        }
        self.finish(writer)
    }
}

/// Reads at most so many bytes, into the front of a block. It gives none only at the end.
fn read_some<R: Read>(reader: &mut R, block: &mut [u8], most: usize) -> Result<usize, ScriptFault>
    requires block { 0 < length block.old }
    requires most { 0 < most }
    ensures bound { IfOk result (λ count. (count ≤ most) × (count ≤ length block.new)) }
    ensures bytes { IfOk result (λ count. Consumes (R.remaining reader.old) (R.remaining reader.new)
        (take count block.new)) }
    ensures end { IfOk result (λ count. count ≡ 0 → IsAtEnd (R.remaining reader.new)) }
    ensures failed { IfErr result (λ fault. (fault ≡ ScriptFault.ReadFailed)
        × Keeps (R.remaining reader.old) (R.remaining reader.new)) }
{
    let room = most.min(block.len());
    match reader.read(&mut block[..room]) {
        Ok(count) => Ok(count),
        Err(_) => Err(ScriptFault::ReadFailed),
    }
}

/// The bytes before the first line feed, and those after it; None where there is no line feed.
pub fn split_line(bytes: &[u8]) -> Option<(&[u8], &[u8])>
    ensures { MatchOption result (IsOneLine bytes.now)
        (λ found. (bytes.now ≡ found.0.now ++ 10 ∷ found.1.now) × IsOneLine found.0.now) }
{
    match memchr(b'\n', bytes) {
        None => None,
        Some(end) => Some((&bytes[..end], &bytes[end + 1..])),
    }
}

/// Carries out a line, whose number counts from 1. A malformed one changes nothing.
#[tactic(auto, unfolding(crate::specs::Script::is_malformed))]
fn carry_out<W: Takes>(
    core: &mut Core,
    output: &mut Output,
    bytes: &[u8],
    number: u32,
    writer: &mut W,
) -> Result<(), ScriptFault>
    ensures sound { OnOk result (is_malformed bytes.now ≡ false) }
    ensures state { OnOk result (core.new.state ≡ state_after core.old.state (line_of bytes.now)) }
    ensures text { OnOk result (LeavesUnwritten (W.contents writer.old) (W.contents writer.new)
        (output.old ++ text_after core.old.state (line_of bytes.now)) output.new) }
    ensures fault { IfErr result (λ fault. LineFails fault number bytes.now output.old output.new
        (W.contents writer.old) (W.contents writer.new)) }
    ensures fails { IfErr result (MayEnd W.may_fail) }
{
    match line_of(bytes) {
        Line::Skipped => Ok(()),
        Line::Malformed => Err(ScriptFault::Malformed { line: number }),
        Line::Event(event) => {
            let reply = core.step(&event);
            output.push_reply(&reply, writer)?;
            Ok(())
        }
    }
}
