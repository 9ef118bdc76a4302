//! What a log keeps of one event.

use kernel_calls::{Call, Reply};
use page_words::Pid;

/// One event of a history, with its reply.
#[derive(Clone, Copy, Debug, PartialEq, Eq)]
pub struct LogEntry {
    /// The CPU that made the call.
    pub cpu: u8,
    /// How many earlier entries of this history that CPU has.
    pub nth: usize,
    /// The process that the call was made for.
    pub pid: Pid,
    pub call: Call,
    pub reply: Reply,
    /// The charge of the process after the event, in frames; 0 where it is not live then.
    pub used_after: u32,
}
