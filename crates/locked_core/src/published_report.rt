//! What is published: a report, with the prefix of the history that it reports on.
ghost use Rattle.std.specs.Prelude.{◌≡◌, ◌+◌, ◌≤◌, [], length};
ghost use Rattle.memory_report.specs.Histories.{Legal, state_after};
ghost use Rattle.memory_report.specs.Reports.{report_of};
ghost use Rattle.locked_core.specs.Moments.{entries_in};
ghost use Rattle.locked_core.specs.Pages.{CatchesUp, LagsBehind, page};

use crate::book::{Beginning, Front, Law, Name};
use crate::call_log::CallLog;
use left_right::Absorb;
use memory_report::Report;
use std::alloc::AllocError;
use std::marker::Model;

/// A report on a prefix of a history. Contracts see the prefix, and which kernel's it is.
#[derive(Drop)]
pub struct Shown {
    frames: u32,
    report: Report,
    count: usize,
    seen: Beginning,
}

impl Model for Shown {
    ghost use Rattle.std.specs.Prelude.{◌≡◌, length};
    ghost use Rattle.memory_report.specs.Histories.{Legal, state_after};
    ghost use Rattle.memory_report.specs.Reports.{report_of};
    ghost use Rattle.locked_core.specs.Moments.{entries_in};
    ghost use Rattle.locked_core.specs.Pages.{Page, page};

    ghost Value = { Page };

    ghost view = { λ s. page s.frames s.seen.book (entries_in s.seen.log) };

    ghost invariant = { λ s. (s.count ≡ length (entries_in s.seen.log)) × Legal s.frames (entries_in s.seen.log)
        × (s.report ≡ report_of (state_after s.frames (entries_in s.seen.log))) };
}

impl Shown {
    /// The report of the opening.
    pub fn opening(frames: u32, seen: &Beginning) -> Shown
        requires size { (16 ≤ frames) × (frames ≤ 1048576) }
        requires empty { seen.now.log ≡ [] }
        ensures { result ≡ page frames seen.now.book [] }
    {
        Shown {
            frames,
            report: Report::boot(frames),
            count: 0,
            seen: seen.again(),
        }
    }

    pub fn report(&self) -> Report
        ensures { result ≡ report_of (state_after self.now.frames self.now.log) }
    {
        self.report
    }

    /// The beginning of the history, under the kernel's name.
    pub fn front<N: Name>(&self) -> Front<N>
        requires { (self.now.frames ≡ N.frames) × (self.now.book ≡ N.book.history) }
        ensures { entries_in result ≡ self.now.log }
    {
        Front::new(self.count, self.seen.again())
    }

    /// Copies the page, with a token of the same prefix of the history.
    pub fn again(&self) -> Shown
        ensures { result ≡ self.now }
    {
        Shown {
            frames: self.frames,
            report: self.report,
            count: self.count,
            seen: self.seen.again(),
        }
    }

    /// How many entries it reports on.
    pub fn count(&self) -> usize
        ensures { result ≡ length self.now.log }
    {
        self.count
    }

    /// The beginning of the history, under no name.
    pub fn beginning(&self) -> Beginning
        ensures { (entries_in result.log ≡ self.now.log) × (result.book ≡ self.now.book) }
    {
        self.seen.again()
    }

    /// Takes in all that the log has behind the entries that it reports on. The log still keeps those.
    pub fn catch_up(&mut self, log: &CallLog, seen: &Beginning)
        requires seen { entries_in seen.now.log ≡ log.now.entries }
        requires behind { LagsBehind self.old (page self.old.frames seen.now.book log.now.entries) }
        requires kept { length log.now.entries ≤ length self.old.log + log.now.keeps }
        requires legal { Legal self.old.frames log.now.entries }
        ensures { self.new ≡ page self.old.frames seen.now.book log.now.entries }
    {
        absorb_from(&mut self.report, log, self.count);
        self.count = log.len();
        self.seen = seen.again();
    }
}

/// Absorbs the entries of the log from this place on, in their order.
fn absorb_from(report: &mut Report, log: &CallLog, first: usize)
    requires within { first ≤ length log.now.entries }
    requires kept { length log.now.entries ≤ first + log.now.keeps }
    ensures { CatchesUp report.old first log.now.entries report.new }
{
    for place in first..log.len() {
        report.absorb(log.at(place));
    }
}

/// Nothing is put into the writer's queue: each side takes in what it lacks from the log itself.
impl Absorb<()> for Shown {
    type State = u8;

    ghost state = { λ s. 0 };

    ghost applied = { λ s o. s };

    ghost never_fails = { Unit {0} };

    fn absorb_first(&mut self, _operation: &(), _other: &Shown) -> Result<(), AllocError> {
        Ok(())
    }
}
