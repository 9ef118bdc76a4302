//! The text of a verdict, written line by line.

ghost use Rattle.std.specs.Prelude.{◌≡◌, ◌+◌, ◌≤◌, ◌<◌, ◌^◌, [], ◌∷◌, ◌++◌, length, codes, decimal, OnOk, OnErr};
ghost use Rattle.std.specs.Io.KnownBytes.{Appends};
ghost use Rattle.arrayvec.specs.ArrayVec.{array_vec_len};
ghost use Rattle.text_output.specs.Output.{AppendsFront};
ghost use Rattle.image_check.specs.Codes.{process_number, frame_number};
ghost use Rattle.image_check.specs.Text.{lines_from, process_line, frame_line, process_lines, frame_lines, verdict_text};

use crate::clauses::{FrameClause, ProcessClause};
use crate::verdicts::Verdict;
use arrayvec::ArrayVec;
use std::io::Write;
use text_output::{WriteFailed, push_number, push_word, write_whole};

/// Room for the longest line of a verdict.
const ROOM: usize = 32;

type Line = ArrayVec<u8, ROOM>;

impl ProcessClause {
    /// Its number, 1 to 7, in the order in which the clauses are asked.
    pub fn number(self) -> u32
        ensures number { result ≡ process_number self }
        ensures bound { result < 10 }
    {
        match self {
            ProcessClause::Parent => 1,
            ProcessClause::Directory => 2,
            ProcessClause::Tables => 3,
            ProcessClause::Pages => 4,
            ProcessClause::Used => 5,
            ProcessClause::Given => 6,
            ProcessClause::Quota => 7,
        }
    }
}

impl FrameClause {
    /// Its number, 1 to 5.
    pub fn number(self) -> u32
        ensures number { result ≡ frame_number self }
        ensures bound { result < 10 }
    {
        match self {
            FrameClause::Reserved => 1,
            FrameClause::Directory => 2,
            FrameClause::Table => 3,
            FrameClause::Page => 4,
            FrameClause::Free => 5,
        }
    }
}

/// The digit of a clause's number, and the end of the line.
#[tactic(auto, using(text_output::proofs::DecimalLemmas::one_digit))]
fn end_line(line: &mut Line, clause: u32)
    requires room { array_vec_len line.old + 2 ≤ 32 }
    requires digit { clause < 10 }
    ensures { line.new.items ≡ line.old.items ++ decimal clause ++ 10 ∷ [] }
{
    line.push(b'0' + clause as u8);
    line.push(b'\n');
}

/// The line of a process that fails a clause.
#[tactic(auto, unfolding(crate::specs::Text::process_line))]
fn process_line(number: u32, clause: ProcessClause) -> Line
    ensures { result.items ≡ process_line number (Some clause) }
{
    let mut line = ArrayVec::new();
    push_number(&mut line, "process ", number);
    push_word(&mut line, " P");
    end_line(&mut line, clause.number());
    line
}

/// The line of a frame that fails a clause.
#[tactic(auto, unfolding(crate::specs::Text::frame_line))]
fn frame_line(number: u32, clause: FrameClause) -> Line
    ensures { result.items ≡ frame_line number (Some clause) }
{
    let mut line = ArrayVec::new();
    push_number(&mut line, "frame ", number);
    push_word(&mut line, " F");
    end_line(&mut line, clause.number());
    line
}

/// Writes the line of a process, where it fails a clause.
#[tactic(auto, unfolding(crate::specs::Text::process_line))]
fn write_process<W: Write>(
    number: u32,
    clause: &Option<ProcessClause>,
    writer: &mut W,
) -> Result<(), WriteFailed>
    ensures ok { OnOk result (Appends (W.contents writer.old) (W.contents writer.new)
        (process_line number clause.now)) }
    ensures err { OnErr result (AppendsFront (W.contents writer.old) (W.contents writer.new)
        (process_line number clause.now)) }
{
    match clause {
        Some(clause) => write_whole(writer, &process_line(number, *clause)),
        None => Ok(()),
    }
}

/// Writes the line of a frame, where it fails a clause.
#[tactic(auto, unfolding(crate::specs::Text::frame_line))]
fn write_frame<W: Write>(
    number: u32,
    clause: &Option<FrameClause>,
    writer: &mut W,
) -> Result<(), WriteFailed>
    ensures ok { OnOk result (Appends (W.contents writer.old) (W.contents writer.new) (frame_line number clause.now)) }
    ensures err { OnErr result (AppendsFront (W.contents writer.old) (W.contents writer.new)
        (frame_line number clause.now)) }
{
    match clause {
        Some(clause) => write_whole(writer, &frame_line(number, *clause)),
        None => Ok(()),
    }
}

fn write_processes<W: Write>(
    clauses: &[Option<ProcessClause>],
    writer: &mut W,
) -> Result<(), WriteFailed>
    requires { length clauses.now < 2 ^ 32 }
    ensures ok { OnOk result (Appends (W.contents writer.old) (W.contents writer.new)
        (lines_from process_line 0 clauses.now)) }
    ensures err { OnErr result (AppendsFront (W.contents writer.old) (W.contents writer.new)
        (lines_from process_line 0 clauses.now)) }
{
    for (number, clause) in clauses.iter().enumerate() {
        write_process(number as u32, clause, writer)?;
    }
    Ok(())
}

fn write_frames<W: Write>(
    clauses: &[Option<FrameClause>],
    writer: &mut W,
) -> Result<(), WriteFailed>
    requires { length clauses.now < 2 ^ 32 }
    ensures ok { OnOk result (Appends (W.contents writer.old) (W.contents writer.new)
        (lines_from frame_line 0 clauses.now)) }
    ensures err { OnErr result (AppendsFront (W.contents writer.old) (W.contents writer.new)
        (lines_from frame_line 0 clauses.now)) }
{
    for (number, clause) in clauses.iter().enumerate() {
        write_frame(number as u32, clause, writer)?;
    }
    Ok(())
}

/// Writes the line of a sound image.
fn write_sound<W: Write>(writer: &mut W) -> Result<(), WriteFailed>
    ensures ok { OnOk result (Appends (W.contents writer.old) (W.contents writer.new) (codes "sound" ++ 10 ∷ [])) }
    ensures err { OnErr result (AppendsFront (W.contents writer.old) (W.contents writer.new)
        (codes "sound" ++ 10 ∷ [])) }
{
    write_whole(writer, b"sound\n")
}

/// Writes the lines of the clauses that fail.
fn write_failing<W: Write>(verdict: &Verdict, writer: &mut W) -> Result<(), WriteFailed>
    ensures ok { OnOk result (Appends (W.contents writer.old) (W.contents writer.new)
        (process_lines verdict.now ++ frame_lines verdict.now)) }
    ensures err { OnErr result (AppendsFront (W.contents writer.old) (W.contents writer.new)
        (process_lines verdict.now ++ frame_lines verdict.now)) }
{
    write_processes(verdict.processes(), writer)?;
    write_frames(verdict.frames(), writer)
}

impl Verdict {
    /// Writes the line `sound` where no clause fails, and else a line for each process, and then for each
    /// frame, that fails one, in ascending order of their numbers.
    ///
    /// WriteFailed where a write fails; what was written is then a front of the text.
    pub fn write_text<W: Write>(&self, writer: &mut W) -> Result<(), WriteFailed>
        ensures ok { OnOk result (Appends (W.contents writer.old) (W.contents writer.new) (verdict_text self.now)) }
        ensures err { OnErr result (AppendsFront (W.contents writer.old) (W.contents writer.new)
            (verdict_text self.now)) }
    {
        if self.sound() {
            write_sound(writer)
        } else {
            write_failing(self, writer)
        }
    }
}
