//! Plans of accesses, and why an access stops.
use page_words::Vaddr;
use process_table::Cause;
use table_walk::PageFault;

/// The step that an access needs for one page that it touches.
#[derive(Clone, Copy, Debug, PartialEq, Eq)]
pub enum PageStep {
    /// The page is mapped with the right that the access needs, and takes it as memory stands.
    Complete,
    /// A fresh page of zeros is mapped first.
    MapZero,
    /// The page is mapped with the right to write, and lazy: it gets a frame of its own first.
    Fill,
}

/// The plan of an access: complete it, fault, or refuse it.
#[derive(Clone, Copy, Debug, PartialEq, Eq)]
pub enum Plan {
    /// The access completes: by the step of the page that its address lies in, and by that of the next page, where
    /// its bytes reach into it. A call that is no access and is not refused has this plan too, with Complete
    /// alone.
    Ready {
        first: PageStep,
        second: Option<PageStep>,
    },
    /// A page fault, with the processor's error code.
    Fault(PageFault),
    Refused(Cause),
}

/// Why an access doesn't complete.
#[derive(Clone, Copy, Debug, PartialEq, Eq)]
pub enum Stop {
    Refused(Cause),
    /// A page fault, with the processor's error code.
    Fault(PageFault),
}

/// A plan, and what the process is charged for after it.
#[derive(Clone, Copy, Debug, PartialEq, Eq)]
pub struct Planned {
    pub plan: Plan,
    /// The process's charge afterwards, in frames; after a fault or a refusal, its current charge.
    pub charge: u32,
}

/// What one lookup of a page says about an access to it.
#[derive(Clone, Copy, Debug, PartialEq, Eq)]
pub(crate) struct Look {
    /// The first byte that the access touches in the page.
    pub byte: Vaddr,
    /// The step for the page, if the access may have it.
    pub step: PageStep,
    /// Whether the page is mapped without the right to write.
    pub read_only: bool,
    /// What one more page costs there: nothing where the page is mapped.
    pub need: u32,
}
