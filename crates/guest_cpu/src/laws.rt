//! Laws of guests' runs. Each is the contract of a function that computes nothing.

ghost use Rattle.guest_cpu.specs.Laws.{CoresAnswer, GuestsAreIsolated, GuestsAreUnreached, GuestsHearTheSame, RunsAreDetermined, RunsGoOn};

/// What a core answers to a guest's calls, one after another, are the machine's answers to their events,
/// and the core is then in the machine's last state. It computes nothing.
pub fn cores_answer_as_the_machine()
    ensures { CoresAnswer }
{}

/// States that a guest that ran out of turns and is run again runs as one that had all the turns from the start. Its
/// answers and events are those of the first run and then those of the second, and it ends as the second does. It
/// computes nothing.
pub fn runs_go_on()
    ensures { RunsGoOn }
{}

/// The program, the guest, the turns and the port's answers determine the events that a run makes, how it
/// ends and the guest afterwards. It computes nothing.
pub fn runs_are_determined()
    ensures { RunsAreDetermined }
{}

/// States that a guest of a process that involves nobody ends as it would alone. Its exchanges begin those of a new
/// process in a run of the machine, from a well-formed state, and make no Offer, Accept, Spawn or Fork. Then the guest
/// ends, with its registers and its counter, as it does over a core in which it is process 1, alone with the quota and
/// the pages that the process was given. The replies of a kernel's history are those of such a run, so it holds of
/// guests over its CPUs. It computes nothing.
pub fn guests_are_isolated()
    ensures { GuestsAreIsolated }
{}

/// States that a guest's replies, and how it ends, depend only on what its process sees. Take two runs from states that
/// look the same to a live process, in which others use no channel to it. In each a guest of one program makes all
/// calls of the process, and finds the same processes live. Then both guests get the same replies and end in the same
/// way, with the same registers and counter. If the process is a family of its own that keeps within itself, this holds
/// whatever others do. It computes nothing.
pub fn guests_hear_their_own()
    ensures seen { GuestsHearTheSame }
    ensures unreached { GuestsAreUnreached }
{}
