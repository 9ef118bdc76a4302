//! Laws of verdicts. Each is the contract of a function that computes nothing.

ghost use Rattle.image_check.specs.WordTests.{TestsDecide};
ghost use Rattle.image_check.specs.Verdict.{SoundWhereNothingFails};
ghost use Rattle.image_check.specs.Draws.{DrawsAddUp, DrawsStayBelow};

/// An image is sound exactly where no process and no frame fails a clause. It computes nothing.
pub fn sound_where_nothing_fails()
    ensures { SoundWhereNothingFails }
{}

/// The tests of words say which words a kernel writes. It computes nothing.
pub fn tests_decide()
    ensures { TestsDecide }
{}

/// What is counted for each drawn number adds up to what is counted for all. It computes nothing.
pub fn draws_add_up()
    ensures all { DrawsAddUp }
    ensures some { DrawsStayBelow }
{}
