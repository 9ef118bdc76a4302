//! Why a round ends early.

ghost use Rattle.std.specs.Prelude.{◌≡◌};

use guest_cpu::End;
use integrity_checker::AuditFault;
use locked_core::{BootFault, Fault};
use thiserror::Error;

/// Why a round ends early. If there are several causes, the first in this order is reported.
#[derive(Clone, Copy, Debug, PartialEq, Eq, Error)]
pub enum RoundFault {
    /// There is not enough memory.
    #[error("out of memory")]
    NoMemory,
    /// A guest ran out of turns.
    #[error("a guest ran out of turns")]
    Turns,
    /// A guest ended otherwise, the kernel refused a call or was not closed, its report is not there or
    /// differs, or its memory was not found sound.
    #[error("the round failed")]
    Failed,
}

// The clauses' words on causes name `RoundFault`, and so stand below it.
ghost use Rattle.guest_race.specs.Causes.{cause_of, graver, told_cause};

impl From<BootFault> for RoundFault {
    ghost use Rattle.std.specs.Prelude.{◌≡◌};
    ghost use Rattle.guest_race.specs.Causes.{boot_cause};

    ghost from_gives = { λ fault e. e ≡ boot_cause fault };

    fn from(fault: BootFault) -> RoundFault {
        match fault {
            BootFault::NoMemory => RoundFault::NoMemory,
            BootFault::BadSize | BootFault::BadCount => RoundFault::Failed,
        }
    }
}

impl From<Fault> for RoundFault {
    ghost use Rattle.std.specs.Prelude.{◌≡◌};
    ghost use Rattle.guest_race.specs.Causes.{kernel_cause};

    ghost from_gives = { λ fault e. e ≡ kernel_cause fault };

    fn from(fault: Fault) -> RoundFault {
        match fault {
            Fault::NoMemory => RoundFault::NoMemory,
            Fault::Unread | Fault::Disagree | Fault::TooManyFrames => RoundFault::Failed,
        }
    }
}

impl From<AuditFault> for RoundFault {
    ghost use Rattle.std.specs.Prelude.{◌≡◌};
    ghost use Rattle.guest_race.specs.Causes.{audit_cause};

    ghost from_gives = { λ fault e. e ≡ audit_cause fault };

    fn from(fault: AuditFault) -> RoundFault {
        match fault {
            AuditFault::NoMemory => RoundFault::NoMemory,
            AuditFault::BadCount | AuditFault::Missing => RoundFault::Failed,
        }
    }
}

/// Why the end of a guest ends its round; None where it halted.
pub(crate) fn cause_of(end: &End) -> Option<RoundFault>
    ensures { result ≡ cause_of end.now }
{
    match end {
        End::Halted => None,
        End::OutOfTurns => Some(RoundFault::Turns),
        End::PortFault(fault) if fault.0 == 1 => Some(RoundFault::NoMemory),
        End::PortFault(_) | End::Stopped(_) => Some(RoundFault::Failed),
    }
}

/// Returns the graver of two causes: NoMemory, then Turns, then Failed.
pub(crate) fn graver(a: RoundFault, b: RoundFault) -> RoundFault
    ensures { result ≡ graver a b }
{
    match (a, b) {
        (RoundFault::NoMemory, _) | (_, RoundFault::NoMemory) => RoundFault::NoMemory,
        (RoundFault::Turns, _) | (_, RoundFault::Turns) => RoundFault::Turns,
        (RoundFault::Failed, RoundFault::Failed) => RoundFault::Failed,
    }
}

/// Returns the graver of two causes, each of which may be absent.
pub(crate) fn told_cause(a: Option<RoundFault>, b: Option<RoundFault>) -> Option<RoundFault>
    ensures { result ≡ told_cause a b }
{
    match (a, b) {
        (None, b) => b,
        (a, None) => a,
        (Some(a), Some(b)) => Some(graver(a, b)),
    }
}
