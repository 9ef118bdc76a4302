//! The moments of a kernel's history.
ghost use Rattle.process_table.specs.View.{View, view_code};
ghost use base.Fml.{ftrue};

use memory_report::LogEntry;
use std::marker::Model;

/// A moment of the history: the entry of a call, and the core as the call left it. No value of it is made, since the
/// history exists in proofs alone.
pub struct Moment {
    pub entry: LogEntry,
    pub ghost core: { View } by { view_code },
}

impl Model for Moment {
    ghost also_owns = { λ _. ftrue };
}
