//! Why a command of a program ends early.

use memory_image::ImageFault;
use script_run::ScriptFault;
use std::error::Error;
use std::fmt;
use text_output::WriteFailed;
use wide_image::{WideImageFault, WideReadFault};

/// Why a command of a program ends early: one for each line of the table of fault texts.
#[derive(Clone, Copy, Debug, PartialEq, Eq)]
pub enum ToolFault {
    /// The number of frames is not 16 to 4,096.
    BadSize,
    /// The number of frames of a machine that is stored whole is not 16 to 1,048,576.
    BadWideSize,
    /// There is not enough memory.
    NoMemory,
    /// A line of a script, counted from 1, says nothing that a script may say.
    Malformed {
        /// The line's number.
        line: u32,
    },
    /// A script has more than 16,777,216 bytes.
    TooLong,
    /// A file could not be opened, or a read answered an error.
    ReadFailed,
    /// A write answered an error, or took no byte.
    WriteFailed,
    /// A file does not begin as an image does.
    NotImage,
    /// An image is of a version that the command doesn't take.
    BadVersion,
    /// The length of an image isn't the one that its counts give.
    BadLength,
    /// A field of an image breaks its rule.
    BadField {
        /// The place of its first byte.
        offset: u64,
    },
    /// A guest of a race ran out of turns.
    RaceTurns,
    /// A guest of a race ended otherwise, a kernel of it refused a call or was not closed, or a report
    /// was not there or differs.
    RaceFailed,
}

impl fmt::Display for ToolFault {
    ghost use Rattle.std.specs.Prelude.{Some};
    ghost use Rattle.command_answers.specs.Faults.{tool_text};

    ghost output = { λ fault. Some (tool_text fault) };

    fn fmt<W: fmt::Write>(&self, f: &mut fmt::Formatter<W>) -> fmt::Result {
        let message = Message(*self);
        write!(f, "tower: {message}")
    }
}

impl Error for ToolFault {}

/// What a fault says, without the name of the program whose command it ended.
#[derive(Clone, Copy, Debug, PartialEq, Eq)]
pub struct Message(pub ToolFault);

impl fmt::Display for Message {
    ghost use Rattle.std.specs.Prelude.{Some};
    ghost use Rattle.command_answers.specs.Faults.{tool_message};

    ghost output = { λ message. Some (tool_message message.0) };

    fn fmt<W: fmt::Write>(&self, f: &mut fmt::Formatter<W>) -> fmt::Result {
        match self.0 {
            ToolFault::BadSize => write!(f, "frames must be 16 to 4096"),
            ToolFault::BadWideSize => write!(f, "frames must be 16 to 1048576"),
            ToolFault::NoMemory => write!(f, "out of memory"),
            ToolFault::Malformed { line } => write!(f, "line {line} is malformed"),
            ToolFault::TooLong => write!(f, "script is too long"),
            ToolFault::ReadFailed => write!(f, "read failed"),
            ToolFault::WriteFailed => write!(f, "write failed"),
            ToolFault::NotImage => write!(f, "not an image"),
            ToolFault::BadVersion => write!(f, "unknown image version"),
            ToolFault::BadLength => write!(f, "wrong image length"),
            ToolFault::BadField { offset } => write!(f, "bad field at byte {offset}"),
            ToolFault::RaceTurns => write!(f, "race ran out of turns"),
            ToolFault::RaceFailed => write!(f, "race failed"),
        }
    }
}

impl From<WriteFailed> for ToolFault {
    ghost use Rattle.std.specs.Prelude.{◌≡◌};
    ghost use Rattle.command_answers.specs.declared.faults.ToolFault.TheVariants as fault;

    ghost from_gives = { λ _ e. e ≡ fault.WriteFailed };

    fn from(_failed: WriteFailed) -> ToolFault {
        ToolFault::WriteFailed
    }
}

impl From<ScriptFault> for ToolFault {
    ghost use Rattle.std.specs.Prelude.{◌≡◌};
    ghost use Rattle.command_answers.specs.Faults.{tool_of_script};

    ghost from_gives = { λ fault e. e ≡ tool_of_script fault };

    fn from(fault: ScriptFault) -> ToolFault {
        match fault {
            ScriptFault::BadSize => ToolFault::BadSize,
            ScriptFault::NoMemory => ToolFault::NoMemory,
            ScriptFault::Malformed { line } => ToolFault::Malformed { line },
            ScriptFault::TooLong => ToolFault::TooLong,
            ScriptFault::ReadFailed => ToolFault::ReadFailed,
            ScriptFault::WriteFailed => ToolFault::WriteFailed,
        }
    }
}

impl From<ImageFault> for ToolFault {
    ghost use Rattle.std.specs.Prelude.{◌≡◌};
    ghost use Rattle.command_answers.specs.Faults.{tool_of_image};

    ghost from_gives = { λ fault e. e ≡ tool_of_image fault };

    fn from(fault: ImageFault) -> ToolFault {
        match fault {
            ImageFault::NotImage => ToolFault::NotImage,
            ImageFault::BadLength => ToolFault::BadLength,
            ImageFault::BadVersion => ToolFault::BadVersion,
            ImageFault::BadField { offset } => ToolFault::BadField {
                offset: u64::from(offset),
            },
            ImageFault::NoMemory => ToolFault::NoMemory,
        }
    }
}

impl From<WideReadFault> for ToolFault {
    ghost use Rattle.std.specs.Prelude.{◌≡◌};
    ghost use Rattle.command_answers.specs.Faults.{tool_of_whole};

    ghost from_gives = { λ fault e. e ≡ tool_of_whole fault };

    fn from(fault: WideReadFault) -> ToolFault {
        match fault {
            WideReadFault::ReadFailed => ToolFault::ReadFailed,
            WideReadFault::NotRead(WideImageFault::NotImage) => ToolFault::NotImage,
            WideReadFault::NotRead(WideImageFault::BadLength) => ToolFault::BadLength,
            WideReadFault::NotRead(WideImageFault::BadVersion) => ToolFault::BadVersion,
            WideReadFault::NotRead(WideImageFault::BadField { offset }) => {
                ToolFault::BadField { offset }
            }
            WideReadFault::NotRead(WideImageFault::NoMemory) => ToolFault::NoMemory,
        }
    }
}
