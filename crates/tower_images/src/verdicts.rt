//! A verdict in numbers.

ghost use Rattle.std.specs.Prelude.{◌≡◌, ◌⊎◌};
ghost use Rattle.image_restore.specs.Failing.{FailsFirst};
ghost use Rattle.memory_image.specs.Image.{Image};
ghost use Rattle.tower_images.specs.Audits.{FailsFrame, FailsProcess, fault_numbers};

use crate::statuses::{FRAME_FAILS, PROCESS_FAILS};
use image_restore::Failed;
use memory_image::ImageFault;

/// What fails, and which clause of it.
#[repr(C)]
#[derive(Clone, Copy)]
pub struct TowerVerdict {
    /// The process, the frame, or the place of the field.
    pub number: u32,
    /// The number of the clause, or of the reason against the bytes.
    pub clause: u32,
}

/// Why bytes are no image, in numbers.
pub fn verdict_from(fault: ImageFault) -> TowerVerdict
    ensures { result ≡ fault_numbers fault }
{
    let (clause, number) = match fault {
        ImageFault::NotImage => (1, 0),
        ImageFault::BadLength => (2, 0),
        ImageFault::BadVersion => (3, 0),
        ImageFault::BadField { offset } => (4, offset),
        ImageFault::NoMemory => (0, 0),
    };
    TowerVerdict { number, clause }
}

/// Writes the first clause that fails of an image, in numbers.
pub fn tell_failed(failed: Failed, told: &mut TowerVerdict) -> u32
    ensures statuses { (result ≡ 3) ⊎ (result ≡ 4) }
    ensures process { result ≡ 3 → (image : Image) → FailsFirst image failed → FailsProcess told.new image }
    ensures frame { result ≡ 4 → (image : Image) → FailsFirst image failed → FailsFrame told.new image }
{
    match failed {
        Failed::Process { pid, clause } => {
            *told = TowerVerdict {
                number: u32::from(pid.number()),
                clause: clause.number(),
            };
            PROCESS_FAILS
        }
        Failed::Frame { frame, clause } => {
            *told = TowerVerdict {
                number: frame.0,
                clause: clause.number(),
            };
            FRAME_FAILS
        }
    }
}
