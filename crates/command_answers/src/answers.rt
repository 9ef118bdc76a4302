//! The answer to a command line: its exit status, and its message on standard error.

ghost use Rattle.std.specs.Prelude.{◌≡◌, OnOk};
ghost use Rattle.std.specs.Io.KnownBytes.{Appends};
ghost use Rattle.command_answers.specs.Answers.{Refuses, Tells, answer_of_words, status_of, told_line};
ghost use Rattle.command_answers.specs.Faults.{status_of_tool, tool_message, words_text};

use crate::faults::{Message, ToolFault};
use crate::given_words::WordsFault;
use clap::error::ErrorKind;
use std::io;
use std::io::Write;

/// The answer to a command line.
#[derive(Drop)]
pub enum Answer {
    /// Its job was done; where that was to check an image, it is sound.
    Done,
    /// An image was checked, and its verdict written: it is not sound.
    NotSound,
    /// Its job ended early, or there was no memory to read the command line.
    Failed(ToolFault),
    /// A word of it is not text.
    NotText,
    /// `clap` refused it; a call for help is refused too.
    Refused(clap::Error),
}

/// The exit status of a fault: 2 for a refused size, script or image, and 1 for any other.
fn status_of_tool(fault: ToolFault) -> u8
    ensures { result ≡ status_of_tool fault }
{
    match fault {
        ToolFault::BadSize => 2,
        ToolFault::BadWideSize => 2,
        ToolFault::Malformed { .. } => 2,
        ToolFault::TooLong => 2,
        ToolFault::NotImage => 2,
        ToolFault::BadVersion => 2,
        ToolFault::BadLength => 2,
        ToolFault::BadField { .. } => 2,
        ToolFault::NoMemory => 1,
        ToolFault::ReadFailed => 1,
        ToolFault::WriteFailed => 1,
        ToolFault::RaceTurns => 1,
        ToolFault::RaceFailed => 1,
    }
}

/// Returns the exit status. It is 0 if the job was done, and 1 if memory ran out, a device failed or a race failed. It
/// is 2 for a refused command line, size, script or image, and 3 for an image that is not sound.
pub fn status_of(answer: &Answer) -> u8
    ensures { result ≡ status_of answer.now }
{
    match answer {
        Answer::Done => 0,
        Answer::NotSound => 3,
        Answer::Failed(fault) => status_of_tool(*fault),
        Answer::NotText => 2,
        Answer::Refused(_) => 2,
    }
}

/// Writes a fault of a program's job, in a line after the program's name.
#[tactic(auto, unfolding(crate::specs::Answers::told_line))]
fn tell_fault<E: Write>(program: &str, fault: ToolFault, errors: &mut E) -> io::Result<()>
    ensures { OnOk result (Appends (E.contents errors.old) (E.contents errors.new)
        (told_line program.now (tool_message fault))) }
{
    let message = Message(fault);
    write!(errors, "{program}: {message}\n")
}

/// Writes why the arguments of a command line were not read, in such a line.
#[tactic(auto, unfolding(crate::specs::Answers::told_line))]
fn tell_words<E: Write>(program: &str, fault: WordsFault, errors: &mut E) -> io::Result<()>
    ensures { OnOk result (Appends (E.contents errors.old) (E.contents errors.new)
        (told_line program.now (words_text fault))) }
{
    write!(errors, "{program}: {fault}\n")
}

/// Writes to standard error what ended a command line of a program early: a line with the program's name and the text
/// of its fault, or the message of `clap` about arguments that it refuses. Of a job that was done it writes nothing,
/// whether an image is sound or not.
///
/// An error is that of a write.
pub fn tell<E: Write>(program: &str, answer: &Answer, errors: &mut E) -> io::Result<()>
    ensures { OnOk result (Tells program.now answer.now (E.contents errors.old) (E.contents errors.new)) }
{
    match answer {
        Answer::Done => Ok(()),
        Answer::NotSound => Ok(()),
        Answer::Failed(fault) => tell_fault(program, *fault, errors),
        Answer::NotText => tell_words(program, WordsFault::NotText, errors),
        Answer::Refused(error) => errors.write_fmt(error),
    }
}

/// The answer where the words of a command line were not read.
pub fn answer_of_words(fault: WordsFault) -> Answer
    ensures { result ≡ answer_of_words fault }
{
    match fault {
        WordsFault::NoMemory => Answer::Failed(ToolFault::NoMemory),
        WordsFault::NotText => Answer::NotText,
    }
}

/// Returns the answer to refused arguments: NoMemory if memory ran out; `clap` reports anything else.
pub fn refuse(error: clap::Error) -> Answer
    ensures { Refuses error result }
{
    if error.kind() == ErrorKind::OutOfMemory {
        Answer::Failed(ToolFault::NoMemory)
    } else {
        Answer::Refused(error)
    }
}
