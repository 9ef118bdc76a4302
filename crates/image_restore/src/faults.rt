//! Why no core came of an image.

use image_check::{FrameClause, ProcessClause};
use page_words::{Frame, Pid};

/// The first clause that fails of an image that isn't sound: of the first process that fails one, and where no process
/// does, of the first frame.
#[derive(Clone, Copy, Debug, PartialEq, Eq)]
pub enum Failed {
    /// A process fails a clause.
    Process { pid: Pid, clause: ProcessClause },
    /// A frame fails a clause, and no process does.
    Frame { frame: Frame, clause: FrameClause },
}

/// Why no core came of an image.
#[derive(Clone, Copy, Debug, PartialEq, Eq)]
pub enum RestoreFault {
    /// Its tables have the words of version 1.
    OldWords,
    /// It isn't sound.
    NotSound(Failed),
    /// There was no memory for the check or the core.
    NoMemory,
}
