//! A helper's step: it draws one number, and checks its process.

ghost use Rattle.std.specs.Prelude.{◌≡◌, ◌↔◌, [], true, false};
ghost use Rattle.integrity_checker.specs.Drawn.{drawer};
ghost use Rattle.integrity_checker.specs.Found.{IsFound};
ghost use Rattle.integrity_checker.specs.Steps.{IsOf, Stepped};

use crate::draw::{Draw, Drawer};
use crate::findings::Findings;
use crate::parts::{Audit, Helper, Step};
use atomic_table::Seat;
use image_check::pid_of;

impl Helper {
    /// A helper that has answered no number.
    pub(crate) fn new(seat: Seat<u8, Drawer>, findings: Findings) -> Helper
        requires seat { (seat.me.0 ≡ drawer seat.me.0.image 1 [] false) × (seat.me.1 ≡ []) }
        requires found { IsFound seat.me.0.image [] findings.clauses findings.names.items findings.maps.items }
        ensures { result ≡ record { table = seat.table_id; image = seat.me.0.image; answered = []; done = false } }
    {
        Helper {
            seat,
            done: false,
            findings,
        }
    }

    /// Draws one number and checks its process, or answers that none is left; it draws none after that. It never waits
    /// and allocates nothing.
    pub fn step(&mut self, audit: &Audit) -> Step
        requires { IsOf audit.now self.old }
        ensures own { IsOf audit.now self.new }
        ensures step { Stepped audit.now.image self.old.answered self.new.answered result }
        ensures done { (result ≡ Step.NoneLeft) ↔ (self.new.done ≡ true) }
    {
        if self.done {
            return Step::NoneLeft;
        }
        let Helper {
            seat,
            done,
            findings,
        } = self;
        let found = audit.table.shared.fetch_add::<Draw>(seat, 0, 1);
        if found >= 64 {
            *done = true;
            return Step::NoneLeft;
        }
        let number = found as u8;
        let clause = findings.judge(&audit.about.image, number);
        Step::Checked {
            pid: pid_of(number),
            clause,
        }
    }
}
