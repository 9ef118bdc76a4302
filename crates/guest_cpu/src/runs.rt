//! A guest's run over a port.
ghost use Rattle.std.specs.Prelude.{◌≡◌, ◌<◌, ◌^◌, IfSome, slice_get};
ghost use Rattle.guest_cpu.specs.Runs.{HasExecuted, HasRun};

use crate::guests::{Guest, value_of};
use crate::instructions::Instruction;
use crate::ports::{Port, PortFault};
use kernel_calls::Reply;

/// How a run ended.
#[derive(Clone, Copy, Debug, PartialEq, Eq)]
pub enum End {
    /// The guest halted, or its counter lay outside the program.
    Halted,
    /// No turn was left. The guest can be run on.
    OutOfTurns,
    /// A call was refused or faulted; registers and counter are as before the instruction.
    Stopped(Reply),
    /// The port did not answer a call; registers and counter are as before the instruction.
    PortFault(PortFault),
}

/// The instruction at the guest's counter; None where the counter lies outside the program.
fn next_instruction(guest: &Guest, program: &[Instruction]) -> Option<Instruction>
    ensures instruction { result ≡ slice_get program.now guest.now.counter }
    ensures bound { IfSome result (λ _. guest.now.counter < 2 ^ 63) }
{
    program.get(guest.counter()).copied()
}

/// Carries out one instruction. Returns the end of the run if this ends it: at Halt, and at a call that is refused,
/// that faults, or that the port does not answer.
fn execute<P: Port>(guest: &mut Guest, instruction: &Instruction, port: &mut P) -> Option<End>
    requires { guest.old.counter < 2 ^ 63 }
    ensures { HasExecuted P.step instruction.now guest.old port.old result guest.new port.new }
{
    if instruction.is_halt() {
        return Some(End::Halted);
    }
    let Some(event) = guest.event_asked(instruction) else {
        guest.complete(instruction, 0);
        return None;
    };
    match port.call(event) {
        Err(fault) => Some(End::PortFault(fault)),
        Ok(reply) => match value_of(&reply) {
            None => Some(End::Stopped(reply)),
            Some(value) => {
                guest.complete(instruction, value);
                None
            }
        },
    }
}

/// Runs a guest until it ends, for at most `turns` turns, and answers how it ended.
///
/// Before each instruction, a counter outside the program ends the run as Halted. Otherwise the run is OutOfTurns if no
/// turn is left, or a turn is spent. A guest that ran out of turns can be run again, as one that had all the turns from
/// the start.
pub fn run<P: Port>(guest: &mut Guest, program: &[Instruction], turns: u32, port: &mut P) -> End
    ensures { HasRun P.step program.now turns guest.old port.old result guest.new port.new }
{
    for _ in 0..turns {
        let Some(instruction) = next_instruction(guest, program) else {
            return End::Halted;
        };
        if let Some(end) = execute(guest, &instruction, port) {
            return end;
        }
    }
    match next_instruction(guest, program) {
        Some(_) => End::OutOfTurns,
        None => End::Halted,
    }
}
