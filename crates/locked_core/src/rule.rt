//! The rule of what is published.
use crate::published_report::Shown;
use atomic_table::{Join, Split};
use crossbeam_utils::rule::{Outcome, Protocol};
use left_right::reader::Reader;
use left_right::writer::Writer;

/// Which kernel one reader reads. No value of it is made.
pub struct WhichKernel {
    pub knows: bool,
    pub frames: u32,
    pub number: u64,
    pub log_name: u64,
    pub cells_name: u64,
}

pub struct Published;

impl Protocol<Shown, WhichKernel> for Published {
    ghost use Rattle.locked_core.specs.Published.{Keeps, stranger};

    ghost holds = { Keeps };

    ghost first = { stranger };
}

pub struct Look;

impl Outcome<Shown, WhichKernel> for Look {
    ghost use Rattle.locked_core.specs.Published.{Looks};

    ghost then = { Looks };
}

pub struct Opening;

impl Outcome<Shown, WhichKernel> for Opening {
    ghost use Rattle.locked_core.specs.Published.{Opens};

    ghost then = { Opens };
}

pub struct Later;

impl Outcome<Shown, WhichKernel> for Later {
    ghost use Rattle.locked_core.specs.Published.{Stays};

    ghost then = { Stays };
}

/// A note has all that the writer knows, and the reader that learns it knows that.
pub struct Notes;

impl Split<WhichKernel> for Notes {
    ghost left = { λ v. v };

    ghost right = { λ v. v };
}

impl Join<WhichKernel> for Notes {
    ghost use Rattle.locked_core.specs.Published.{stranger};

    ghost both = { λ v w. w };

    ghost spent = { stranger };
}

pub type LogReader = Reader<Shown, WhichKernel, Published>;

pub type LogWriter = Writer<Shown, (), WhichKernel, Published>;
