//! Rounds on the smallest and the largest memory, sizes that no kernel has, and who is asked in a round.

use crate::comparing::same;
use guest_race::{Referee, RoundFault, round, round_by};
use integrity_checker::{Audit, AuditFault, Helper, Verdict};
use locked_core::{Monitor, Name, Seen};
use std::process::Abort;
use std::sync::Wait;
use std::thread::Threads;

/// A round on so many frames ends, and its processes use 6 of them.
fn check_round<R: AllocGlobal + Threads + Wait + Abort + Sync>(rt: &R, frames: u32) {
    let report = round(rt, rt.alloc(), frames).expect(rt, "a round");
    same(rt, &(frames, report.total()), &(frames, 6));
}

#[test]
fn a_round_ends_with_two_processes(rt: HostRuntime) {
    check_round(&rt, 16);
    check_round(&rt, 4096);
}

/// No round on so many frames.
fn check_failed<R: AllocGlobal + Threads + Wait + Abort + Sync>(rt: &R, frames: u32) {
    let ended = round(rt, rt.alloc(), frames).err();
    same(rt, &(frames, ended), &(frames, Some(RoundFault::Failed)));
}

#[test]
fn no_round_on_a_size_that_no_kernel_has(rt: HostRuntime) {
    check_failed(&rt, 0);
    check_failed(&rt, 15);
    check_failed(&rt, 4097);
    check_failed(&rt, u32::MAX);
}

/// Asks, and counts how often.
#[derive(Drop)]
struct Counts {
    reports: u32,
    verdicts: u32,
}

impl Referee for Counts {
    ghost use Rattle.std.specs.Prelude.{⊤};

    ghost reported = { λ before rows after. ⊤ };

    ghost judged = { λ before verdict after. ⊤ };

    fn report<N: Name>(&mut self, monitor: &mut Monitor<N>) -> Option<Seen> {
        self.reports = self.reports.wrapping_add(1);
        monitor.report()
    }

    fn verdict(&mut self, audit: Audit, helpers: Vec<Helper>) -> Result<Verdict, AuditFault> {
        self.verdicts = self.verdicts.wrapping_add(1);
        audit.finish(helpers)
    }
}

/// One round more, by whose end the referee was asked for so many reports and verdicts.
fn check_asked<R: AllocGlobal + Threads + Wait + Abort + Sync>(
    rt: &R,
    referee: &mut Counts,
    rounds: u32,
) {
    let ended = round_by(rt, rt.alloc(), 16, referee);
    let found = (ended.is_ok(), referee.reports, referee.verdicts);
    same(rt, &found, &(true, rounds, rounds));
}

#[test]
fn a_referee_is_asked_in_each_round(rt: HostRuntime) {
    let mut referee = Counts {
        reports: 0,
        verdicts: 0,
    };
    check_asked(&rt, &mut referee, 1);
    check_asked(&rt, &mut referee, 2);
    check_asked(&rt, &mut referee, 3);
}
