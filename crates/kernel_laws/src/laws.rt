//! Laws of the machine's runs. Each is the contract of a function that computes nothing.

ghost use Rattle.kernel_calls.specs.Cleaned.{EventsEndMarks};
ghost use Rattle.kernel_laws.specs.Cleaning.{CleaningKeepsStates, CleaningIsUnseen, KeptThroughMarks, KeptAmongMarks, CleaningIsNoEvent, CleaningShows};
ghost use Rattle.kernel_laws.specs.Beside.{AccessesBeside, OrdersEndTheSame};
ghost use Rattle.kernel_laws.specs.Cpus.{CpusMakeNoDifference, RunsOnCpus};
ghost use Rattle.kernel_laws.specs.OwnActs.{CleaningWritesItsOwn, CopiesWriteTheirOwn, InstallsWriteTheirOwn, LoadsWriteTheirOwn, ReadsWriteTheirOwn};
ghost use Rattle.kernel_laws.specs.OwnRuns.{ActsWriteTheirOwn, LeavingComposes, RunsWriteTheirOwn};
ghost use Rattle.kernel_laws.specs.Causes.{CompletesUnless, RefusedByTheFirst, FaultsAtTheFirstByte};
ghost use Rattle.kernel_calls.specs.Effects.{CompletesByKind, SlotsCome};
ghost use Rattle.kernel_laws.specs.Effects.{DoneMeansDone, SlotsGo, FlagsChange};
ghost use Rattle.kernel_calls.specs.Isolation.{RunsAreIsolated, OthersMakeNoDifference};
ghost use Rattle.kernel_calls.specs.Written.{EventsWriteTheirOwn};
ghost use Rattle.kernel_laws.specs.OwnEvents.{EventsLeaveToOthers};

/// In any run from a well-formed state, take a new process that makes no Offer, Accept, Spawn or Fork, not even a
/// refused one. Up to its first Exit its replies are those of process 1 of a machine where it is alone, with its quota
/// and the pages that it got from a fork. So the number of frames, its own number and all other processes have no
/// effect on it. It gets the same replies in the run without the later events of all others. It computes nothing.
pub fn processes_are_isolated()
    ensures alone { RunsAreIsolated }
    ensures others { OthersMakeNoDifference }
{}

/// States what an event writes of memory: frames that were free, its process's own and, if it accepts a lazy page, the
/// giver's directory and table that lead there. Each byte of any other page stays, each word of any other table, and
/// each word of any other directory except accessed. It computes nothing.
pub fn events_write_their_own()
    ensures frames { EventsWriteTheirOwn }
    ensures others { EventsLeaveToOthers }
{}

/// States what a run of some processes' events writes of memory, if none of these is an Accept: frames that were free
/// before the run, and these processes' own. All else stays as an event leaves it, with its role, and becomes neither free
/// nor theirs. So do acts that are runs, such as the end of a family and the taking back of a page. What leaves others so
/// composes. It computes nothing.
pub fn runs_write_their_own()
    ensures runs { RunsWriteTheirOwn }
    ensures acts { ActsWriteTheirOwn }
    ensures composes { LeavingComposes }
{}

/// States the same of acts that aren't carried out event by event: reads and writes of a process's memory, installs of bytes
/// in its pages, and clearing the marks of one. Each writes only frames that were free, and the process's own. It computes
/// nothing.
pub fn acts_write_their_own()
    ensures reads { ReadsWriteTheirOwn }
    ensures copies { CopiesWriteTheirOwn }
    ensures installs { InstallsWriteTheirOwn }
    ensures loads { LoadsWriteTheirOwn }
    ensures cleaning { CleaningWritesItsOwn }
{}

/// States that on which CPU a call comes in makes no difference: neither to its reply nor to the next state, and so in
/// runs. It computes nothing.
pub fn cpus_make_no_difference()
    ensures events { CpusMakeNoDifference }
    ensures runs { RunsOnCpus }
{}

/// States that an access of another process and an event may come in either order. The access is in pages that the
/// event's process doesn't see, and the event uses no channel to that process. In either order both get the same
/// replies, each leaves what the other has, and both orders end in one state. It computes nothing.
pub fn accesses_beside_an_event()
    ensures told { AccessesBeside }
    ensures ends { OrdersEndTheSame }
{}

/// States the effect of each call that completes. An access leaves its slots accessed; a Store leaves them dirty, with
/// the bytes of its value. A page that was not mapped has zeros, in a group of its own. A Protect sets the right, an
/// Offer is pending, and an Accept joins the group. Nothing is left of what an Unmap, a Withdraw or an Exit gives up.
/// No other slot is mapped or unmapped, and no other flag changes. It computes nothing.
pub fn done_means_done()
    ensures effects { DoneMeansDone }
    ensures come { SlotsCome }
    ensures go { SlotsGo }
    ensures flags { FlagsChange }
{}

/// States the reply to each call that completes: the number of the bytes to a Load, the flags and the size of the group
/// to an Info. It is the process's container to a Quota, a child to a Spawn and a Fork, and Done to the others. It
/// computes nothing.
#[tactic(auto, using(kernel_calls::proofs::Tellings::completes_by_kind))]
pub fn completes_by_kind()
    ensures { CompletesByKind }
{}

/// States when a call completes, and why it doesn't. Each call has a list of causes, and each cause a condition on the
/// state. A call completes exactly if none of its causes applies and no byte of it faults. It is refused for the first
/// cause of its list that applies. An access faults at its lowest byte outside the user range. If there is none, a
/// Store faults at its lowest byte in a page that it may not write. It computes nothing.
#[tactic(auto, using(crate::proofs::Causes::completes_unless, crate::proofs::Causes::refused_by_the_first, crate::proofs::Causes::faults_at_the_first_byte))]
pub fn calls_complete_unless_refused()
    ensures completes { CompletesUnless }
    ensures refused { RefusedByTheFirst }
    ensures faults { FaultsAtTheFirstByte }
{}

/// States what clearing accessed and dirty of a mapped slot would change. States stay well formed, and the members of a
/// set see nothing of it unless the slot is a member's. What processors cache stays what the walks read, if a change
/// leaves the marks of all slots whose translations it doesn't end, which each event does. No event clears accessed of
/// a slot that was accessed, and an Info of its process shows the difference. It computes nothing.
pub fn cleaning_is_its_own()
    ensures states { CleaningKeepsStates }
    ensures unseen { CleaningIsUnseen }
    ensures events { EventsEndMarks }
    ensures kept { KeptThroughMarks }
    ensures moments { KeptAmongMarks }
    ensures no_event { CleaningIsNoEvent }
    ensures shows { CleaningShows }
{}
