//! Readers of the report, who do not wait.
ghost use Rattle.std.specs.Prelude.{◌≡◌, IfSome, IfNone, length};
ghost use Rattle.left_right.specs.Sides.{view};
ghost use Rattle.locked_core.specs.Moments.{entries_in};
ghost use Rattle.locked_core.specs.Published.{view_of};
ghost use Rattle.memory_report.specs.Histories.{Legal, StartsWith, state_after, longer};
ghost use Rattle.memory_report.specs.Reports.{report_of};

use crate::book::{Front, Name};
use crate::cpu::Told;
use crate::publish::look;
use crate::rule::LogReader;
use core::mem::replace_with;
use memory_report::Report;
use std::marker::Model;

/// A report, and how many entries it has taken in.
#[derive(Clone, Copy, Debug, PartialEq, Eq)]
pub struct Seen {
    pub report: Report,
    pub front: usize,
}

/// One monitor. Contracts see the entries that it has seen.
#[derive(Drop)]
pub struct Monitor<N: Name> {
    reader: LogReader,
    seen: Front<N>,
}

impl<N: Name> Model for Monitor<N> {
    ghost use Rattle.std.specs.Prelude.{◌≡◌, List};
    ghost use Rattle.locked_core.specs.Moments.{entries_in};
    ghost use Rattle.locked_core.specs.Published.{view_of};
    ghost use Rattle.memory_report.specs.declared.entries.LogEntry.{LogEntry};

    ghost Value = { List LogEntry };

    ghost view = { λ m. entries_in m.seen };

    ghost invariant = { λ m. m.reader.place.me.0.client ≡ view_of N.frames N.book.history };
}

impl<N: Name> Monitor<N> {
    pub(crate) fn new(reader: LogReader, seen: Front<N>) -> Monitor<N>
        requires { view reader.place ≡ view_of N.frames N.book.history }
        ensures { result ≡ entries_in seen }
    {
        Monitor { reader, seen }
    }

    /// Returns the report on all that is published, which begins with all that was seen. `None` if the crate lets no
    /// reader in, or what it shows is older than what was received.
    pub fn report(&mut self) -> Option<Seen>
        ensures front { IfSome result (λ s. s.front ≡ length self.new) }
        ensures later { IfSome result (λ s. StartsWith self.new self.old) }
        ensures report { IfSome result (λ s. Legal N.frames self.new
            × (s.report ≡ report_of (state_after N.frames self.new))) }
        ensures none { IfNone result (self.new ≡ self.old) }
    {
        let shown = replace_with(&mut self.reader, (), |reader, _| look(reader))?;
        let front = shown.front::<N>();
        if !self.seen.begins(&front) {
            return None;
        }
        self.seen = front;
        Some(Seen {
            report: shown.report(),
            front: self.seen.len(),
        })
    }

    /// Takes in what was received. It keeps the longer list, of which the other is a prefix.
    #[tactic(auto, using(crate::proofs::Prefixes::starts_itself))]
    pub fn learn(&mut self, told: Told<N>)
        ensures longer { self.new ≡ longer self.old (entries_in told) }
        ensures seen { StartsWith self.new self.old }
        ensures told { StartsWith self.new (entries_in told) }
    {
        let told = told.into_seen();
        if !told.begins(&self.seen) {
            self.seen = told;
        }
    }
}
