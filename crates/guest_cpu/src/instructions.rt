//! What a guest program is made of.
ghost use Rattle.std.specs.Prelude.{◌≡◌, ◌<◌, ◌↔◌, IsSome, IfSome, IsTrue};
ghost use Rattle.guest_cpu.specs.declared.instructions.Instruction.TheVariants.{Halt};

use kernel_calls::Call;
use page_words::Size;
use std::marker::Model;

/// The number of a register, 0 to 7.
#[derive(Clone, Copy, Debug, PartialEq, Eq)]
pub struct Reg {
    number: u8,
}

impl Model for Reg {
    ghost use Rattle.std.specs.Prelude.{ℕ, ◌<◌};

    ghost Value = { ℕ };

    ghost view = { λ r. r.number };

    ghost invariant = { λ r. r.number < 8 };

    ghost inverse = { λ n. record { number = n } };
}

impl Reg {
    /// The register of that number; None from 8 on.
    pub fn new(number: u8) -> Option<Reg>
        ensures exists { IsSome result ↔ (number < 8) }
        ensures value { IfSome result (λ register. register ≡ number) }
    {
        if number < 8 {
            Some(Reg { number })
        } else {
            None
        }
    }

    /// The number, 0 to 7.
    pub fn number(self) -> u8
        ensures value { result ≡ self }
        ensures bound { result < 8 }
    {
        self.number
    }
}

/// What a guest can do. Each instruction except Halt moves the counter on by one, unless it jumps. Sums and differences
/// are modulo 2 to the 32.
#[derive(Clone, Copy, Debug, PartialEq, Eq)]
pub enum Instruction {
    /// The register becomes the value.
    Set(Reg, u32),
    /// The first register becomes the sum of the other two.
    Add(Reg, Reg, Reg),
    /// Calls Load at the address in the second register; the first becomes what the reply gives.
    Load(Size, Reg, Reg),
    /// Calls Store, at the address in the first register, of the value in the second.
    Store(Size, Reg, Reg),
    /// Jumps to that place of the program where the two registers are equal.
    JumpEq(Reg, Reg, usize),
    /// Jumps to that place of the program.
    Jump(usize),
    /// Makes the call; the register becomes what the reply gives.
    Sys(Reg, Call),
    /// Ends the run; the counter stays.
    Halt,
}

impl Instruction {
    /// Whether it is Halt.
    pub(crate) fn is_halt(&self) -> bool
        ensures { IsTrue result ↔ self.now ≡ Halt }
    {
        matches!(self, Instruction::Halt)
    }
}
