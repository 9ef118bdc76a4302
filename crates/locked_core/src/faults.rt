//! Why a kernel was not made, and why a call of it was refused.

ghost use Rattle.std.specs.Prelude.{◌≡◌};
ghost use Rattle.locked_core.specs.Faults.{fault_number};

use thiserror::Error;

/// Why a kernel did not boot, or was not opened.
#[derive(Clone, Copy, Debug, PartialEq, Eq, Error)]
pub enum BootFault {
    /// The number of frames is not 16 to 4,096, of a wide kernel not 16 to 1,048,576.
    #[error("frames must be 16 to 4096, of a wide kernel 16 to 1048576")]
    BadSize,
    /// The number of CPUs is not 1 to 8, or that of monitors not 0 to 8.
    #[error("not 1 to 8 CPUs, or more than 8 monitors")]
    BadCount,
    /// There was no memory for it.
    #[error("out of memory")]
    NoMemory,
}

/// Why a call was not made, or a kernel not closed. What the call was for is then as it was.
#[derive(Clone, Copy, Debug, PartialEq, Eq, Error)]
pub enum Fault {
    /// There was no memory for the log to grow.
    #[error("out of memory")]
    NoMemory,
    /// The turn to add the next entry could not be taken: the kernel's history is longer than the log, or another has
    /// this turn.
    #[error("the history is longer than the log")]
    Unread,
    /// Not every CPU was handed back once, or what they say is not what the log says.
    #[error("the CPUs do not agree with the log")]
    Disagree,
    /// The kernel has more than 4,096 frames, which are the most of an image. `Kernel::store` writes a snapshot of it.
    #[error("more than 4096 frames")]
    TooManyFrames,
}

/// Why a kernel's snapshot was not written whole.
#[derive(Clone, Copy, Debug, PartialEq, Eq, Error)]
pub enum StoreFault {
    /// There was no memory for the list of offers. Nothing was written.
    #[error("out of memory")]
    NoMemory,
    /// The turn to add the next entry could not be taken, as for a call. Nothing was written.
    #[error("the history is longer than the log")]
    Unread,
    /// A write failed. Nothing was written, or a prefix of the image.
    #[error("write failed")]
    WriteFailed,
}

impl Fault {
    /// The fault's number: 1, 3, 5 or 7.
    pub fn number(self) -> u8
        ensures { result ≡ fault_number self }
    {
        match self {
            Fault::NoMemory => 1,
            Fault::Unread => 3,
            Fault::Disagree => 5,
            Fault::TooManyFrames => 7,
        }
    }
}
