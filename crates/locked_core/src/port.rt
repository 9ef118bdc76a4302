//! A CPU as what answers a guest's calls.

ghost use Rattle.std.specs.Prelude.{◌≡◌, ℕ, Result};
ghost use Rattle.kernel_calls.specs.declared.calls.Call.{Call};
ghost use Rattle.kernel_calls.specs.declared.calls.Reply.{Reply};
ghost use Rattle.locked_core.specs.Ports.{by_number};
ghost use Rattle.locked_core.specs.declared.faults.Fault.{Fault};

use crate::book::Name;
use crate::cpu::Cpu;
use crate::faults::Fault;
use crate::gate::Gate;
use crate::kernel::Kernel;
use guest_cpu::{Port, PortFault};
use kernel_calls::{Call, Event, Reply};
use page_words::Pid;
use std::sync::Wait;

/// Makes the calls of a port, in some surroundings: a CPU on its kernel, or a replacement of one.
pub trait Caller<K> {
    /// The number of its CPU.
    ghost cpu_of: { Self → ℕ };

    /// The relation of a call: the caller before, the process, the call, the result, and the caller after.
    ghost called: { Self → ℕ → Call → Result Reply Fault → Self → Type 0 };

    /// The number of its CPU.
    fn number(&self) -> u8
        ensures { result ≡ cpu_of self.now };

    /// Makes a call of a process.
    fn call_on(&mut self, surroundings: &K, pid: Pid, call: Call) -> Result<Reply, Fault>
        ensures { called self.old pid call result self.new };
}

/// What a CPU's calls are made on: its kernel, with the handle by which they may wait.
#[derive(Drop)]
pub struct OnKernel<'a, N: Name, G: Gate + Drop, R: Wait> {
    rt: &'a R,
    kernel: &'a Kernel<N, G>,
}

impl<'a, N: Name, G: Gate + Drop, R: Wait> Caller<OnKernel<'a, N, G, R>> for Cpu<N> {
    ghost use Rattle.locked_core.specs.Ports.{IsCpuCall};

    ghost cpu_of = { λ cpu. cpu.number };

    ghost called = { IsCpuCall N.frames N.book };

    fn number(&self) -> u8 {
        self.number
    }

    fn call_on(
        &mut self,
        surroundings: &OnKernel<'a, N, G, R>,
        pid: Pid,
        call: Call,
    ) -> Result<Reply, Fault> {
        self.call(surroundings.rt, surroundings.kernel, pid, call)
    }
}

/// A port over whoever makes its calls.
#[derive(Drop)]
pub struct CallerPort<'a, C: Caller<K>, K: Drop> {
    pub caller: &'a mut C,
    surroundings: K,
}

/// A port over one CPU of a kernel. A guest's run over it may wait, as each call of the CPU may.
pub type CpuPort<'a, N, G, R> = CallerPort<'a, Cpu<N>, OnKernel<'a, N, G, R>>;

impl<'a, N: Name, G: Gate + Drop, R: Wait> CallerPort<'a, Cpu<N>, OnKernel<'a, N, G, R>> {
    /// The port over that CPU.
    pub fn new(rt: &'a R, cpu: &'a mut Cpu<N>, kernel: &'a Kernel<N, G>) -> CpuPort<'a, N, G, R>
        ensures cpu { result.caller.now ≡ cpu.entry.now }
        ensures same_reference { result.caller.ghost_name ≡ cpu.entry.ghost_name }
    {
        CallerPort {
            caller: cpu,
            surroundings: OnKernel { rt, kernel },
        }
    }
}

/// Returns the result of a call, with a fault replaced by its number.
fn by_number(given: Result<Reply, Fault>) -> Result<Reply, PortFault>
    ensures { result ≡ by_number given }
{
    match given {
        Ok(reply) => Ok(reply),
        Err(fault) => Err(PortFault(fault.number())),
    }
}

/// Each call is one call of the caller; a fault of any kind is reported by its number. The answer to an event of
/// another CPU is 6, and nothing is called.
impl<'a, C: Caller<K>, K: Drop> Port for CallerPort<'a, C, K> {
    ghost use Rattle.std.specs.Prelude.{◌≡◌};
    ghost use Rattle.locked_core.specs.Ports.{IsPortStep};

    ghost step = { λ before event answer after. IsPortStep C.cpu_of C.called before.caller.now event answer
        after.caller.now × (after.caller.ghost_name ≡ before.caller.ghost_name) };

    fn call(&mut self, event: Event) -> Result<Reply, PortFault> {
        if event.cpu != self.caller.number() {
            return Err(PortFault(6));
        }
        by_number(
            self.caller
                .call_on(&self.surroundings, event.pid, event.call),
        )
    }
}
