//! What an audit and its helpers keep.

use crate::draw::{About, Drawer, Draws};
use crate::findings::Findings;
use atomic_table::{Seat, Table};
use image_check::{FrameClause, ProcessClause};
use page_words::Pid;
use std::alloc::Global;
use std::marker::Model;

/// The word from which the helpers draw.
pub type DrawTable = Table<u8, Drawer, About, Draws, Global>;

/// What one step gives.
#[derive(Clone, Copy, Debug, PartialEq, Eq)]
pub enum Step {
    /// A process was checked: the first clause that it fails, None if it fails none.
    Checked {
        pid: Pid,
        clause: Option<ProcessClause>,
    },
    /// All 64 numbers were drawn.
    NoneLeft,
}

/// An image that helpers check. Contracts see the table from which they draw, how many they are, and the image. End it
/// with `finish`.
#[derive(Drop)]
pub struct Audit {
    pub(crate) table: DrawTable,
    /// How many helpers it has, and the image.
    pub(crate) about: About,
    pub(crate) room: Vec<Option<FrameClause>>,
}

impl Model for Audit {
    ghost use Rattle.std.specs.Prelude.{◌≡◌, ◌<◌, ◌≤◌, length};
    ghost use Rattle.memory_image.specs.Image.{frames};
    ghost use Rattle.integrity_checker.specs.Held.{Audited};

    ghost Value = { Audited };

    ghost view = { λ a. record { table = a.table.shared.table_id; helpers = a.about.helpers; image = a.about.image } };

    ghost invariant = { λ a. (a.table.shared.key ≡ a.about) × (a.table.shared.table_id.words ≡ 1)
        × (0 < a.about.helpers) × (a.about.helpers ≤ 8) × (length a.room.items ≡ frames a.about.image) };
}

/// A helper that checks processes of an audit. Contracts see the table from which it draws, the image, the numbers that
/// it has answered, and whether it has answered that none is left.
#[derive(Drop)]
pub struct Helper {
    pub(crate) seat: Seat<u8, Drawer>,
    /// Whether it has answered that no number is left.
    pub(crate) done: bool,
    pub(crate) findings: Findings,
}

impl Model for Helper {
    ghost use Rattle.std.specs.Prelude.{◌≡◌, []};
    ghost use Rattle.image_check.specs.Draws.{AreSomeDrawn};
    ghost use Rattle.integrity_checker.specs.Found.{IsFound};
    ghost use Rattle.integrity_checker.specs.Held.{Helping};

    ghost Value = { Helping };

    ghost view = { λ h. record {
      table = h.seat.table_id;
      image = h.seat.me.0.image;
      answered = h.seat.me.0.drawn;
      done
          = h.done;
    } };

    ghost invariant = { λ h. (h.seat.me.0.share ≡ 1) × (h.seat.me.1 ≡ []) × (h.seat.me.0.done ≡ h.done)
        × AreSomeDrawn h.seat.me.0.drawn 64
        × IsFound h.seat.me.0.image h.seat.me.0.drawn h.findings.clauses h.findings.names.items h.findings.maps.items };
}
