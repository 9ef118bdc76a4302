//! How many frames a machine may have, and why there is none.

ghost use Rattle.std.specs.Prelude.{◌≤◌, ◌↔◌, IsTrue};

use crate::addresses::{MAX_FRAMES, MIN_FRAMES, WIDE_FRAMES};
use std::error::Error;
use std::fmt;

/// Why there is no machine of that many frames, or no part of one: its memory, the ledger of its free
/// frames, the roles of its frames, its address spaces, its processes, its core.
#[derive(Clone, Copy, Debug, PartialEq, Eq)]
pub enum MachineFault {
    /// The number of frames is not 16 to 4,096.
    BadSize,
    /// There was no memory for it.
    NoMemory,
}

impl fmt::Display for MachineFault {
    ghost use Rattle.std.specs.Prelude.{Some};
    ghost use Rattle.page_words.specs.Faults.{fault_text};

    ghost output = { λ fault. Some (fault_text fault) };

    fn fmt<W: fmt::Write>(&self, f: &mut fmt::Formatter<W>) -> fmt::Result {
        match self {
            MachineFault::BadSize => write!(f, "frames must be 16 to 4096"),
            MachineFault::NoMemory => write!(f, "out of memory"),
        }
    }
}

impl Error for MachineFault {}

/// Why there is no wide machine of that many frames, or no part of one.
#[derive(Clone, Copy, Debug, PartialEq, Eq)]
pub enum WideFault {
    /// The number of frames is not 16 to 1,048,576.
    BadSize,
    /// There was no memory for it.
    NoMemory,
}

impl fmt::Display for WideFault {
    ghost use Rattle.std.specs.Prelude.{Some};
    ghost use Rattle.page_words.specs.Faults.{wide_fault_text};

    ghost output = { λ fault. Some (wide_fault_text fault) };

    fn fmt<W: fmt::Write>(&self, f: &mut fmt::Formatter<W>) -> fmt::Result {
        match self {
            WideFault::BadSize => write!(f, "frames must be 16 to 1048576"),
            WideFault::NoMemory => write!(f, "out of memory"),
        }
    }
}

impl Error for WideFault {}

impl From<WideFault> for MachineFault {
    ghost use Rattle.page_words.specs.Faults.{MachineGives};

    ghost from_gives = { MachineGives };

    fn from(fault: WideFault) -> MachineFault {
        match fault {
            WideFault::BadSize => MachineFault::BadSize,
            WideFault::NoMemory => MachineFault::NoMemory,
        }
    }
}

/// Whether a machine may have that many frames: 16 to 4,096.
pub fn is_frame_count(frames: u32) -> bool
    ensures { IsTrue result ↔ (MIN_FRAMES ≤ frames) × (frames ≤ MAX_FRAMES) }
{
    (MIN_FRAMES..=MAX_FRAMES).contains(&frames)
}

/// Whether a wide machine may have that many frames: 16 to 1,048,576.
pub fn is_wide_frame_count(frames: u32) -> bool
    ensures { IsTrue result ↔ (MIN_FRAMES ≤ frames) × (frames ≤ WIDE_FRAMES) }
{
    (MIN_FRAMES..=WIDE_FRAMES).contains(&frames)
}
