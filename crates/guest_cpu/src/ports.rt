//! What answers a guest's calls.

ghost use Rattle.kernel_calls.specs.declared.calls.Event.{Event};
ghost use Rattle.guest_cpu.specs.Ports.{Answer, IsCoreStep};

use kernel_calls::{Core, Event, Reply};
use std::marker::Model;

/// Why a port did not answer a call; each kind of port says what its numbers mean.
#[derive(Clone, Copy, Debug, PartialEq, Eq)]
pub struct PortFault(pub u8);

impl Model for PortFault {
    ghost use Rattle.std.specs.Prelude.{ℕ};

    ghost Value = { ℕ };

    ghost view = { λ f. f.0 };

    ghost inverse = { λ n. record { 0 = n } };
}

/// Something that answers calls.
pub trait Port {
    /// What a call may do: the port before it, the event, the answer, and the port after it.
    ghost step: { Self → Event → Answer → Self → Type 0 };

    /// Makes a call.
    fn call(&mut self, event: Event) -> Result<Reply, PortFault>
        ensures { step self.old event result self.new };
}

/// A core answers each call as the machine does, and never answers a PortFault.
impl Port for Core {
    ghost step = { IsCoreStep };

    fn call(&mut self, event: Event) -> Result<Reply, PortFault> {
        Ok(self.step(&event))
    }
}
