//! Why a script's run ends early.

use kernel_calls::BootFault;
use std::alloc::AllocError;
use std::error::Error;
use std::fmt;
use text_output::WriteFailed;

/// Why a script's run ends early.
#[derive(Clone, Copy, Debug, PartialEq, Eq)]
pub enum ScriptFault {
    /// The number of frames is not 16 to 4,096. Nothing was read or written.
    BadSize,
    /// There is not enough memory. Nothing was read or written.
    NoMemory,
    /// A line, counted from 1, says nothing that a script may say.
    Malformed { line: u32 },
    /// The script has more than 16,777,216 bytes.
    TooLong,
    /// A read answered an error.
    ReadFailed,
    /// A write answered an error, or took no byte.
    WriteFailed,
}

impl fmt::Display for ScriptFault {
    ghost use Rattle.std.specs.Prelude.{Some};
    ghost use Rattle.script_run.specs.Faults.{fault_text};

    ghost output = { λ fault. Some (fault_text fault) };

    fn fmt<W: fmt::Write>(&self, f: &mut fmt::Formatter<W>) -> fmt::Result {
        match self {
            ScriptFault::BadSize => write!(f, "tower: frames must be 16 to 4096"),
            ScriptFault::NoMemory => write!(f, "tower: out of memory"),
            ScriptFault::Malformed { line } => write!(f, "tower: line {line} is malformed"),
            ScriptFault::TooLong => write!(f, "tower: script is too long"),
            ScriptFault::ReadFailed => write!(f, "tower: read failed"),
            ScriptFault::WriteFailed => write!(f, "tower: write failed"),
        }
    }
}

impl Error for ScriptFault {}

impl From<WriteFailed> for ScriptFault {
    ghost use Rattle.std.specs.Prelude.{◌≡◌};
    ghost use Rattle.script_run.specs.declared.faults.ScriptFault.TheVariants as fault;

    ghost from_gives = { λ _ e. e ≡ fault.WriteFailed };

    fn from(_failed: WriteFailed) -> ScriptFault {
        ScriptFault::WriteFailed
    }
}

impl From<AllocError> for ScriptFault {
    ghost use Rattle.std.specs.Prelude.{◌≡◌};
    ghost use Rattle.script_run.specs.declared.faults.ScriptFault.TheVariants as fault;

    ghost from_gives = { λ _ e. e ≡ fault.NoMemory };

    fn from(_error: AllocError) -> ScriptFault {
        ScriptFault::NoMemory
    }
}

impl From<BootFault> for ScriptFault {
    ghost use Rattle.script_run.specs.Faults.{BootGives};

    ghost from_gives = { BootGives };

    fn from(fault: BootFault) -> ScriptFault {
        match fault {
            BootFault::BadSize => ScriptFault::BadSize,
            BootFault::NoMemory => ScriptFault::NoMemory,
        }
    }
}
