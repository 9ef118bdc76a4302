//! What makes all processors forget the translations that a call ended.

ghost use Rattle.kernel_calls.specs.declared.translations.Ended.{Ended};

use kernel_calls::Ended;

/// Receives, under the lock, which translations each call ended. If it waits until all processors have invalidated
/// them, none of them is used in the next call of any CPU.
///
/// Only the listener says what a report does to it. So a call can't leave its report out, repeat it or replace it.
pub trait Invalidate {
    /// What a report does: the listener before it, what the call ended, and the listener after it.
    ghost told: { Self → Ended → Self → Type 0 };

    /// Receives what a call ended.
    fn invalidate(&mut self, ended: &Ended)
        ensures { told self.old ended.now self.new };
}
