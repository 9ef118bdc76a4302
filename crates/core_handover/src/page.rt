//! What is published: a report on the core as it was given back, with the prefix of the history that ends with it.

ghost use Rattle.std.specs.Prelude.{◌≡◌, IfOk};
ghost use Rattle.core_handover.specs.Rooms.{IsOf};
ghost use Rattle.memory_report.specs.Reports.{report_of};
ghost use Rattle.core_handover.specs.Histories.{last_core};

use crate::history::{Beginning, Front};
use counted_slot::Fits;
use kernel_calls::Core;
use memory_report::{Report, report_of};
use std::alloc::{AllocError, Global};
use std::marker::Model;

/// A report on the last core of a prefix of the history. Contracts see the prefix.
#[derive(Drop)]
pub struct Page {
    report: Report,
    front: Front,
}

impl Model for Page {
    ghost use Rattle.std.specs.Prelude.{◌≡◌};
    ghost use Rattle.memory_report.specs.Reports.{report_of};
    ghost use Rattle.core_handover.specs.Histories.{Known, last_core};

    ghost Value = { Known };

    ghost view = { λ p. p.front };

    ghost invariant = { λ p. p.report ≡ report_of (last_core p.front.log).state };
}

impl Page {
    /// The report on this core, which is the last one of the prefix.
    pub(crate) fn new(core: &Core, front: Front) -> Page
        requires { core.now ≡ last_core front.log }
        ensures { result ≡ front }
    {
        Page {
            report: report_of(core),
            front,
        }
    }

    /// What each process may use, uses and gives.
    pub fn report(&self) -> Report
        ensures { result ≡ report_of (last_core self.now.log).state }
    {
        self.report
    }

    /// The prefix that it reports on.
    pub fn front(&self) -> &Front
        ensures { result.now ≡ self.now }
    {
        &self.front
    }

    /// Copies the page, with a token of the same prefix.
    pub(crate) fn again(&self) -> Page
        ensures { result ≡ self.now }
    {
        Page {
            report: self.report,
            front: self.front.again(),
        }
    }
}

/// A page of its own memory, so that it is passed on as a pointer.
#[derive(Drop)]
pub(crate) struct Sheet {
    pub page: Box<Page>,
}

impl Fits for Sheet {
    type Tag = Beginning;

    ghost use Rattle.core_handover.specs.Rooms.{IsOf};

    ghost fits = { λ tag s. IsOf tag.book s };
}

impl Sheet {
    pub fn new(alloc: Global, page: Page) -> Result<Sheet, AllocError>
        ensures { IfOk result (IsOf page.book) }
    {
        match Box::new(alloc, page) {
            Ok(page) => Ok(Sheet { page }),
            Err(_) => Err(AllocError),
        }
    }
}
