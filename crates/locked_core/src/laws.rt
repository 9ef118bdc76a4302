//! Laws of a kernel's history. Each is the contract of a function that computes nothing.

ghost use Rattle.locked_core.specs.Beside.{CallsAndProcessors};
ghost use Rattle.locked_core.specs.Endings.{ToldOnce, ToldToAll};
ghost use Rattle.locked_core.specs.Moments.{EndsAlong, FollowsFrom, StatesFollow};

/// The moments that a CPU has seen (`Cpu::call`: `followed`) are a run of the machine from any place on (`from`,
/// `along`). Therefore `kept_translations_are_given` (kernel_calls) applies to the calls of all CPUs of a kernel. The
/// moments determine what `Cpu::call_ending` reports (`told`). A CPU that has seen more (`Cpu::begins`) has the report
/// at its place among what its own moments ended (`others`). Each core is in the state of the entries before it
/// (`states`). It computes nothing.
pub fn calls_follow_one_another()
    ensures from { FollowsFrom }
    ensures along { EndsAlong }
    ensures told { ToldOnce }
    ensures others { ToldToAll }
    ensures states { StatesFollow }
{}

/// Takes the calls of a kernel's history, and steps of processors between and within them that leave memory as it is.
/// Each loads by what it keeps, begins to keep what a walk reads, or invalidates what a call ended. Replies and values
/// read are the answers to the events in the order of `shootdowns_make_events` (shootdowns). If the call only takes
/// away, a processor may use what the call ended until it invalidates that. The moments that a CPU has seen are such a
/// history (`Cpu::call_ending`: `followed`, `told`). It computes nothing.
pub fn calls_and_processors_make_events()
    ensures events { CallsAndProcessors }
{}
