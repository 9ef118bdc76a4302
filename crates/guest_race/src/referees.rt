//! Who asks a round's monitor for its report, and its helpers for their verdict.

ghost use Rattle.std.specs.Prelude.{◌≡◌, true, IfOk, IfSome, All, List, Option, length};
ghost use Rattle.image_check.specs.Told.{Told, verdict_on};
ghost use Rattle.integrity_checker.specs.Steps.{IsOf};
ghost use Rattle.memory_report.specs.Histories.{Legal, StartsWith, state_after};
ghost use Rattle.memory_report.specs.Reports.{report_of};
ghost use Rattle.memory_report.specs.declared.rows.Row.{Row};

use integrity_checker::{Audit, AuditFault, Helper, Verdict};
use locked_core::{Monitor, Name, Seen};

/// Asks the two questions of a round. Only the referee says what an answer does to it. So a round can't leave a
/// question out, nor replace the answer that came. A referee that keeps its answers knows which they were.
pub trait Referee {
    /// What a monitor's report does: the referee before it, the rows that came, and the referee after it.
    ghost reported: { Self → List (Option Row) → Self → Type 0 };

    /// What an audit's verdict does: the referee before it, the verdict that came, and the referee after it.
    ghost judged: { Self → Told → Self → Type 0 };

    /// Asks a monitor for its report.
    fn report<N: Name>(&mut self, monitor: &mut Monitor<N>) -> Option<Seen>
        ensures asked { IfSome result (λ s. reported self.old s.report self.new) }
        ensures later { IfSome result (λ s. StartsWith monitor.new monitor.old) }
        ensures report { IfSome result (λ s. Legal N.frames monitor.new
            × (s.report ≡ report_of (state_after N.frames monitor.new))) };

    /// Asks an audit, whose helpers come back and have each answered that no number is left, for its verdict.
    fn verdict(&mut self, audit: Audit, helpers: Vec<Helper>) -> Result<Verdict, AuditFault>
        requires own { All (λ h. IsOf audit h) helpers.items }
        requires done { All (λ h. h.done ≡ true) helpers.items }
        ensures asked { IfOk result (λ v. judged self.old v self.new) }
        ensures verdict { IfOk result (λ v. v ≡ verdict_on audit.image) };
}

/// The referee of a race: it asks, and keeps nothing.
#[derive(Clone, Copy, Debug, Default)]
pub struct Asks;

impl Referee for Asks {
    ghost use Rattle.std.specs.Prelude.{⊤};

    ghost reported = { λ before rows after. ⊤ };

    ghost judged = { λ before verdict after. ⊤ };

    fn report<N: Name>(&mut self, monitor: &mut Monitor<N>) -> Option<Seen> {
        monitor.report()
    }

    fn verdict(&mut self, audit: Audit, helpers: Vec<Helper>) -> Result<Verdict, AuditFault> {
        audit.finish(helpers)
    }
}
