//! A step of the core: what all runs of this crate are made of.

ghost use Rattle.std.specs.Prelude.{◌≡◌, false};
ghost use Rattle.kernel_acts.specs.Below.{CarriesOut, Ends, FramesStay, answer, completes, ended_by, gone_by, memory_of, next};
ghost use Rattle.kernel_acts.specs.Steps.{event_of};

use kernel_calls::{Call, Core, Event, Reply};
use page_words::Pid;

/// Carries out a call of a process, as `Core::step` does. It is inlined nowhere, as the core's step is in it.
#[inline(never)]
pub(crate) fn step(core: &mut Core, pid: Pid, call: Call) -> Reply
    ensures reply { result ≡ answer core.old.state (event_of pid call) }
    ensures state { core.new.state ≡ next core.old.state (event_of pid call) }
    ensures ends { Ends (ended_by core.old (event_of pid call)) core.old core.new }
    ensures kept { completes result ≡ false → core.new ≡ core.old }
    ensures stay { FramesStay (gone_by core.old.state (event_of pid call)) (memory_of core.old) (memory_of core.new) }
    ensures carried { CarriesOut core.old (event_of pid call) core.new }
{
    let reply = core.step(&Event { cpu: 0, pid, call });
    core.stands();
    reply
}

/// Whether a reply is neither a refusal nor a fault.
pub(crate) fn completes(reply: &Reply) -> bool
    ensures { result ≡ completes reply.now }
{
    !matches!(reply, Reply::Refused(_) | Reply::Fault { .. })
}
