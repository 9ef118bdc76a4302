//! A guest: its registers, its program and its counter.
ghost use Rattle.std.specs.Prelude.{◌≡◌, ◌<◌, ◌^◌};
ghost use Rattle.guest_cpu.specs.Guests.{opening_guest, register_of, with_register, event_asked, value_of, place_after, after};

use crate::instructions::{Instruction, Reg};
use kernel_calls::{Call, Event, Reply};
use page_words::{Pid, Vaddr};
use std::marker::Model;

/// A process's program as it runs: eight registers of 32 bits, and the place of the next instruction.
#[derive(Clone, Debug, Drop)]
pub struct Guest {
    cpu: u8,
    pid: Pid,
    registers: [u32; 8],
    counter: usize,
}

impl Model for Guest {
    ghost use Rattle.guest_cpu.specs.Guests.{GuestView, view_code};

    ghost Value = { GuestView };

    ghost coded = { view_code };

    ghost view = { λ g. record { cpu = g.cpu; pid = g.pid; registers = g.registers; counter = g.counter } };
}

/// What a reply gives to a register: 0 for Done, the value, the child's number, the number of holders,
/// or what is left of a quota; None for a fault or a refusal.
pub(crate) fn value_of(reply: &Reply) -> Option<u32>
    ensures { result ≡ value_of reply.now }
{
    match *reply {
        Reply::Done => Some(0),
        Reply::Value(value) => Some(value),
        Reply::Child(pid) => Some(u32::from(pid.number())),
        Reply::Info { holders, .. } => Some(holders),
        Reply::Quota { quota, used, given } => Some(quota.wrapping_sub(used).wrapping_sub(given)),
        Reply::Fault { .. } => None,
        Reply::Refused(_) => None,
    }
}

impl Guest {
    /// A guest of that process on that CPU, its registers and its counter 0.
    pub fn new(cpu: u8, pid: Pid) -> Guest
        ensures { result ≡ opening_guest cpu pid }
    {
        Guest {
            cpu,
            pid,
            registers: [0; 8],
            counter: 0,
        }
    }

    /// What a register holds.
    pub fn register(&self, register: Reg) -> u32
        ensures { result ≡ register_of self.now register }
    {
        self.registers[register.number() as usize]
    }

    /// The place in its program of the instruction that comes next.
    pub fn counter(&self) -> usize
        ensures { result ≡ self.now.counter }
    {
        self.counter
    }

    /// The event that an instruction makes, where it makes a call.
    pub(crate) fn event_asked(&self, instruction: &Instruction) -> Option<Event>
        ensures { result ≡ event_asked self.now instruction.now }
    {
        let call = match *instruction {
            Instruction::Load(size, _, address) => Call::Load {
                addr: Vaddr(self.register(address)),
                size,
            },
            Instruction::Store(size, address, value) => Call::Store {
                addr: Vaddr(self.register(address)),
                size,
                value: self.register(value),
            },
            Instruction::Sys(_, call) => call,
            Instruction::Set(..)
            | Instruction::Add(..)
            | Instruction::JumpEq(..)
            | Instruction::Jump(_)
            | Instruction::Halt => return None,
        };
        Some(Event {
            cpu: self.cpu,
            pid: self.pid,
            call,
        })
    }

    fn set(&mut self, register: Reg, value: u32)
        ensures { self.new ≡ with_register self.old register value }
    {
        self.registers[register.number() as usize] = value;
    }

    /// Where the counter stands after an instruction that stood at a place of a program.
    fn place_after(&self, instruction: &Instruction) -> usize
        requires { self.now.counter < 2 ^ 63 }
        ensures { result ≡ place_after self.now instruction.now }
    {
        match *instruction {
            Instruction::JumpEq(a, b, target) if self.register(a) == self.register(b) => target,
            Instruction::Jump(target) => target,
            Instruction::Halt => self.counter,
            _ => self.counter + 1,
        }
    }

    /// Completes an instruction whose call, where it makes one, gave that value.
    pub(crate) fn complete(&mut self, instruction: &Instruction, given: u32)
        requires { self.old.counter < 2 ^ 63 }
        ensures { self.new ≡ after self.old instruction.now given }
    {
        let place = self.place_after(instruction);
        match *instruction {
            Instruction::Set(to, value) => self.set(to, value),
            Instruction::Add(to, a, b) => {
                let sum = self.register(a).wrapping_add(self.register(b));
                self.set(to, sum);
            }
            Instruction::Load(_, to, _) => self.set(to, given),
            Instruction::Sys(to, _) => self.set(to, given),
            Instruction::Store(..)
            | Instruction::JumpEq(..)
            | Instruction::Jump(_)
            | Instruction::Halt => {}
        }
        self.counter = place;
    }
}
