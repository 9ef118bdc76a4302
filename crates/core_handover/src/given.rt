//! What the history is made of.

ghost use Rattle.process_table.specs.View.{View, view_code};
ghost use base.Fml.{ftrue};

use std::marker::Model;

/// The core as a CPU gave it back. No value of it is made.
pub struct Given {
    pub ghost core: { View } by { view_code },
}

impl Model for Given {
    ghost also_owns = { λ _. ftrue };
}
