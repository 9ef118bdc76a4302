//! The front of a snapshot: its first 1,556 bytes.

ghost use Rattle.std.specs.Prelude.{◌≡◌, ◌+◌, ◌≤◌, ◌⊎◌, None, Some, IfOk, IfErr, OnOk, length, take};
ghost use Rattle.wide_image.specs.Pieces.{IsFront, front_text, front_fault};

use crate::faults::WideImageFault;
use crate::fields::fault_in_front;
use memory_image::{Process, number_at, processes_in};

/// What the front of a snapshot says.
#[derive(Clone, Copy)]
pub struct Front {
    /// How many frames the machine has.
    pub frames: u32,
    /// What each process has, by number, where it is live.
    pub processes: [Option<Process>; 64],
    /// How many offers the snapshot has.
    pub offers: u32,
    /// How many frames aren't free.
    pub stored: u32,
}

/// What a front without a fault says.
fn front_in(bytes: &[u8]) -> Front
    requires { front_fault bytes.now ≡ None }
    ensures front { IsFront result }
    ensures text { front_text result ≡ take 1556 bytes.now }
{
    Front {
        frames: number_at(bytes, 8),
        processes: processes_in(bytes),
        offers: number_at(bytes, 1548),
        stored: number_at(bytes, 1552),
    }
}

/// Reads the front of a snapshot, the first 1,556 bytes of these.
///
/// The faults are the first reasons against a front.
pub(crate) fn read_front(bytes: &[u8]) -> Result<Front, WideImageFault>
    ensures front { IfOk result IsFront }
    ensures text { IfOk result (λ front. front_text front ≡ take 1556 bytes.now) }
    ensures passed { OnOk result (front_fault bytes.now ≡ None) }
    ensures fault { IfErr result (λ fault. front_fault bytes.now ≡ Some fault) }
{
    match fault_in_front(bytes) {
        Some(fault) => Err(fault),
        None => Ok(front_in(bytes)),
    }
}
