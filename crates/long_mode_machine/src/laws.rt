//! Laws of machines in long mode. Each is the contract of a function that computes nothing.

ghost use Rattle.long_mode_machine.specs.Moves.{LongModeMakesSteps};
ghost use Rattle.long_mode_machine.specs.Wide.{MovesFollow, WideLoadsAreMoves, WideStoresAreMoves};

/// States which steps of a machine with processors the moves of a machine in long mode are. It computes nothing.
#[tactic(auto, using(crate::proofs::Law::long_mode_makes_steps))]
pub fn long_mode_makes_steps()
    ensures { LongModeMakesSteps }
{}

/// States that an access of any number of bytes is as many moves next to one another, each of one byte (`loads`,
/// `stores`), and that moves may follow one another (`follow`). It computes nothing.
pub fn wide_accesses_are_moves()
    ensures loads { WideLoadsAreMoves }
    ensures stores { WideStoresAreMoves }
    ensures follow { MovesFollow }
{}
