//! The kernel's calls: each reply and each next state is the abstract machine's.
//!
//! The machine is a definition of finite maps and sets: slots with cells and groups, a book of quotas,
//! and offers (process_table/specs/State.antt, Calls.antt; specs/Machine.antt). `Core` keeps it as words
//! in a simulated physical memory.
#![tactic(auto)]

mod calls;
mod cores;
mod decisions;
mod laws;
mod pages;
mod replies;
mod translations;

pub use alloc_table::Role;
pub use calls::{Call, Decision, Event, Outcome, Reply};
pub use cores::Core;
pub use fault_handler::{PageStep, Plan};
pub use laws::{
    kept_translations_are_given, kept_translations_serve_accesses, processors_leave_cores,
    processors_make_events, runs_stay_well_formed,
};
pub use page_sharing::Offer;
pub use page_words::{Frame, MachineFault as BootFault, Page, Pid, Size, Vaddr, WideFault};
pub use pages::PageState;
pub use phys_memory::Memory;
pub use process_table::Cause;
pub use quota_tree::Container;
pub use translations::Ended;
