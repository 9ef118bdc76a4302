//! Why no core came of a snapshot.

use crate::faults::Failed;
use kernel_calls::Reply;

/// Why no core came of a snapshot.
#[derive(Clone, Copy, Debug, PartialEq, Eq)]
pub enum WideRestoreFault {
    /// Its memory and its accounts aren't sound.
    NotSound(Failed),
    /// The machine refuses the offer of this number, counted from 0.
    BadOffer { number: u32, reply: Reply },
    /// There was no memory for the check or the core.
    NoMemory,
}
