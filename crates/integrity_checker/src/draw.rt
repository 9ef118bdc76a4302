//! The word from which helpers draw numbers, and the rule that it keeps.

use atomic_table::{Join, Play, Split, TableRule};
use memory_image::Image;
use std::collections::LinkedList;

/// What an audit is of. The word's table is named by it.
#[derive(Drop)]
pub struct About {
    /// How many helpers it has, 1 to 8.
    pub helpers: u64,
    /// The image that they check.
    pub image: Image,
}

/// What a helper's seat knows. No value of it is made.
pub struct Drawer {
    /// The image that it checks.
    pub image: Image,
    /// How many helpers it represents.
    pub share: u64,
    /// The numbers that it has drawn.
    pub drawn: LinkedList<u64>,
    /// Whether it has found no number left.
    pub done: bool,
}

/// The rule: each number below 64 and below the word was drawn by one seat, once.
pub struct Draws;

impl TableRule<u8, Drawer, About> for Draws {
    ghost use Rattle.std.specs.Prelude.{[], false};
    ghost use Rattle.integrity_checker.specs.Drawn.{Given, drawer};

    ghost holds = { λ about. Given about.helpers };

    ghost first = { λ about. drawer about.image about.helpers [] false };
}

/// One more number is drawn, or none is left.
pub struct Draw;

impl Play<u8, Drawer> for Draw {
    ghost use Rattle.integrity_checker.specs.Drawn.{Drew};

    ghost then = { Drew };
}

/// The seat that represents all helpers learns that all numbers were drawn.
pub struct Total;

impl Play<u8, Drawer> for Total {
    ghost use Rattle.integrity_checker.specs.Drawn.{Totals};

    ghost then = { Totals };
}

/// Cuts the seat of one helper off a seat that has drawn nothing.
pub struct CutOne;

impl Split<Drawer> for CutOne {
    ghost use Rattle.std.specs.Prelude.{◌-◌, [], false};
    ghost use Rattle.integrity_checker.specs.Drawn.{drawer};

    ghost left = { λ v. drawer v.image (v.share - 1) [] false };

    ghost right = { λ v. drawer v.image 1 [] false };
}

/// Puts two seats that are done together.
pub struct Gather;

impl Join<Drawer> for Gather {
    ghost use Rattle.integrity_checker.specs.Drawn.{gathered, spent};

    ghost both = { gathered };

    ghost spent = { spent };
}
