//! Laws of the machine's runs that crates above use. Each is the contract of a function that computes nothing.

ghost use Rattle.kernel_calls.specs.Along.{KeptThroughRuns};
ghost use Rattle.kernel_calls.specs.Laws.{RunsStayWellFormed};
ghost use Rattle.kernel_calls.specs.Kept.{KeptFind, KeptReply, KeptLoads, KeptStores};
ghost use Rattle.kernel_calls.specs.Processors.{ProcessorsMakeEvents, EntriesLeadThere, CoresAreWalked, WalksLeaveCores, StoresLeaveCores, MarksLeaveCores, WalksTakeNoFrame, WalksKeepContainers};
ghost use Rattle.kernel_calls.specs.Translations.{KeptAreGiven};

/// Every state of a run of a machine that boots is well formed, and all its live processes together
/// cost at most its root's quota, which is all frames but frame 0. It computes nothing.
pub fn runs_stay_well_formed()
    ensures { RunsStayWellFormed }
{}

/// States what holds of translations that processors cached from walks of memory. Each event's are invalidated on all
/// of them before anything else is done, and more are cached only if a walk gives them. Then walks of memory give all
/// that is cached, at each moment. Each event leaves of them what `Core::step` says (`ends`). It computes nothing.
#[tactic(auto, using(crate::proofs::Leaving::kept_given, crate::proofs::Leaving::kept_through_runs))]
pub fn kept_translations_are_given()
    ensures moments { KeptAreGiven }
    ensures runs { KeptThroughRuns }
{}

/// States which accesses kept translations that the walks give still serve. The walks find a frame for each page of
/// such an access, so a processor makes it by itself. A load finds what is at the end of the walks, which is the reply,
/// and the event changes nothing. Of a store, accessed and dirty of each page are already set. It computes nothing.
#[tactic(auto, using(crate::proofs::KeptAccesses::kept_find, crate::proofs::KeptAccesses::kept_reply, crate::proofs::KeptAccesses::kept_loads, crate::proofs::KeptAccesses::kept_stores))]
pub fn kept_translations_serve_accesses()
    ensures find { KeptFind }
    ensures reply { KeptReply }
    ensures loads { KeptLoads }
    ensures stores { KeptStores }
{}

/// States what processors find and leave of a core's memory, with the same directories and roles. Each walk ends as the
/// state says. Suppose that the walks of a process's directory find a frame for each page of a load or a store. A
/// processor then makes the access by itself. It sets accessed (and dirty) in the words that lead to each page, and reads
/// the value, or writes its bytes, where they lead. That is the event. The value is the reply, and memory is a core's in
/// the event's next state. No translation becomes stale, no frame is taken, and containers stay. A store by translations
/// that the walks give is the event too, and writes its bytes only. A mark of accessed in a directory's word is no event,
/// and leaves a core. It computes nothing.
pub fn processors_leave_cores()
    ensures cores { CoresAreWalked }
    ensures walks { WalksLeaveCores }
    ensures plan { WalksTakeNoFrame }
    ensures containers { WalksKeepContainers }
    ensures stores { StoresLeaveCores }
    ensures marks { MarksLeaveCores }
{}

/// States what holds of a core and any number of processors that cache translations, whatever steps they make in
/// sequence. The core carries out an event, and all processors invalidate what it ended before anything else is done. A
/// processor makes an access by its walk, or by translations that it cached. It sets or clears accessed of a directory
/// word, caches what a walk reads then, or forgets. Replies and values read are then the answers to the events, in the
/// order of the steps. Memory is a core's in the state after them. At each moment the walks read all that any processor
/// caches. So a walk that begins at a cached directory entry ends as the walk of the directory does. It computes
/// nothing.
#[tactic(auto, using(crate::proofs::MixedRuns::processors_make_events, crate::proofs::KeptEntries::entries_lead_there))]
pub fn processors_make_events()
    ensures steps { ProcessorsMakeEvents }
    ensures entries { EntriesLeadThere }
{}
