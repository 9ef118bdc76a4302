//! Calls, events, replies and decisions.
use fault_handler::Plan;
use page_words::{Page, Pid, Size, Vaddr};
use process_table::Cause;

/// What a process asks of the kernel.
#[derive(Clone, Copy, Debug, PartialEq, Eq)]
pub enum Call {
    /// Reads `size` bytes at an address. They may lie in two pages.
    Load {
        addr: Vaddr,
        size: Size,
    },
    /// Writes the low `size` bytes of the value at an address. They may lie in two pages.
    Store {
        addr: Vaddr,
        size: Size,
        value: u32,
    },
    /// Maps a page of zeros, with the right to write as asked.
    Map {
        page: Page,
        write: bool,
    },
    /// Takes a page out of the process's space.
    Unmap {
        page: Page,
    },
    /// Sets whether the process may write to a page.
    Protect {
        page: Page,
        write: bool,
    },
    /// Requests a page's flags and how many slots share it.
    Info {
        page: Page,
    },
    /// Offers a page to another process, with the right to write or without it.
    Offer {
        page: Page,
        target: Pid,
        write: bool,
    },
    /// Takes an offer back.
    Withdraw {
        page: Page,
        target: Pid,
    },
    /// Maps a page that another process offers, where this process likes, with the offer's right.
    Accept {
        giver: Pid,
        giver_page: Page,
        page: Page,
    },
    /// Makes a child with that quota, in frames, and an empty space.
    Spawn {
        quota: u32,
    },
    /// Makes a child with that quota, in frames, and a copy of each of the process's pages.
    Fork {
        quota: u32,
    },
    /// Ends the process, whose quota returns to its parent.
    Exit,
    /// Requests the process's quota, and how much of it is used and given.
    Quota,
}

/// A call, as it comes in.
#[derive(Clone, Copy, Debug, PartialEq, Eq)]
pub struct Event {
    /// The CPU that the call came in on, which has no effect on the reply.
    pub cpu: u8,
    pub pid: Pid,
    pub call: Call,
}

/// What the kernel answers.
#[derive(Clone, Copy, Debug, PartialEq, Eq)]
pub enum Reply {
    /// It is done.
    Done,
    /// What was loaded, zero-extended.
    Value(u32),
    /// The number of the new child.
    Child(Pid),
    /// A page's flags, and how many slots share the page, this one among them.
    Info {
        write: bool,
        may: bool,
        accessed: bool,
        dirty: bool,
        holders: u32,
    },
    /// The process's quota, what it is charged for and the sum of its children's quotas, in frames.
    Quota {
        quota: u32,
        used: u32,
        given: u32,
    },
    /// A page fault, with the processor's error code; nothing changed.
    Fault {
        addr: Vaddr,
        code: u8,
    },
    /// A refusal; nothing changed.
    Refused(Cause),
}

/// The reply to an event that was carried out, and the charge after it.
#[derive(Clone, Copy, Debug, PartialEq, Eq)]
pub struct Outcome {
    pub reply: Reply,
    /// The charge of the event's process after it, in frames; 0 where it is not live then.
    pub used_after: u32,
}

/// What was decided of an event on one state of the core.
#[derive(Clone, Copy, Debug, PartialEq, Eq)]
pub struct Decision {
    pub event: Event,
    /// The call's plan. It is Ready unless the call is refused or faults. Where an access first maps a page or gives it
    /// a frame, that page's step is MapZero or Fill.
    pub plan: Plan,
    pub reply: Reply,
    /// The charge of the event's process after it, in frames; 0 where it is not live then.
    pub used_after: u32,
}
