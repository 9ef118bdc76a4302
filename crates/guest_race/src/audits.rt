//! The audit of a kernel's memory by two helpers, each in a thread of its own.

ghost use Rattle.std.specs.Prelude.{◌≡◌, ◌≤◌, ◌∷◌, [], IfNone, IfOk, IfSome, true, vec_len};
ghost use Rattle.std.specs.Vec.{vec_capacity};
ghost use Rattle.image_check.specs.Told.{fails_nothing, verdict_on};
ghost use Rattle.integrity_checker.specs.Steps.{IsOf};
ghost use Rattle.guest_race.specs.Asked.{IsDone, Judges};
ghost use Rattle.guest_race.specs.Rounds.{Audited};

use crate::faults::RoundFault;
use crate::referees::Referee;
use integrity_checker::{Audit, Helper, Step};
use locked_core::{Cpu, Kernel, Name, OpenGate};
use memory_image::Image;
use std::alloc::Global;
use std::sync::Wait;
use std::thread;
use std::thread::Threads;

/// Steps until a helper answers that no number is left: one for each of the 64 numbers, and one more.
const STEPS: u32 = 65;

/// All steps of a helper, which then has answered that no number is left; None where it hasn't.
fn all_steps(audit: &Audit, mut helper: Helper) -> Option<Helper>
    requires { IsOf audit.now helper }
    ensures { IfSome result (IsDone audit.now) }
{
    for step in 0..STEPS {
        if let Step::NoneLeft = helper.step(audit) {
            return Some(helper);
        }
    }
    None
}

/// The steps of two helpers, in two threads.
fn steps_of_both<R: Threads + Sync>(
    rt: &R,
    audit: &Audit,
    first: Helper,
    second: Helper,
) -> (Option<Helper>, Option<Helper>)
    requires { IsOf audit.now first × IsOf audit.now second }
    ensures { IfSome result.0 (IsDone audit.now) × IfSome result.1 (IsDone audit.now) }
{
    thread::join(
        rt,
        move || -> Option<Helper>
            requires { IsOf audit.now first }
            ensures { IfSome result (IsDone audit.entry.now) }
        { all_steps(audit, first) },
        move || -> Option<Helper>
            requires { IsOf audit.now second }
            ensures { IfSome result (IsDone audit.entry.now) }
        { all_steps(audit, second) },
    )
}

/// Whether two helpers find nothing that fails in an image.
fn is_sound<R: Threads + Sync, F: Referee>(
    rt: &R,
    alloc: Global,
    image: Image,
    referee: &mut F,
) -> Result<bool, RoundFault>
    ensures asked { IfOk result (λ sound. Judges F.judged referee.old sound referee.new) }
    ensures sound { IfOk result (λ sound. sound ≡ fails_nothing (verdict_on image)) }
{
    let (audit, mut helpers) = Audit::new(alloc, image, 2)?;
    let second = helpers.pop().unwrap();
    let first = helpers.pop().unwrap();
    let (first, second) = steps_of_both(rt, &audit, first, second);
    helpers.push(first.ok_or(RoundFault::Failed)?).unwrap();
    helpers.push(second.ok_or(RoundFault::Failed)?).unwrap();
    let verdict = referee.verdict(audit, helpers)?;
    Ok(verdict.sound())
}

/// Why an image of the kernel's memory was not found sound; None where it was. What the CPU has seen stays.
pub(crate) fn audit_memory<N: Name, R: Threads + Wait + Sync, F: Referee>(
    rt: &R,
    alloc: Global,
    kernel: &Kernel<N, OpenGate>,
    cpu: &mut Cpu<N>,
    referee: &mut F,
) -> Option<RoundFault>
    ensures kept { cpu.new ≡ cpu.old }
    ensures asked { IfNone result (Judges F.judged referee.old true referee.new) }
    ensures sound { IfNone result (Audited N.frames cpu.old) }
{
    let image = match kernel.snapshot(rt, cpu) {
        Ok(image) => image,
        Err(fault) => return Some(RoundFault::from(fault)),
    };
    match is_sound(rt, alloc, image, referee) {
        Ok(true) => None,
        Ok(false) => Some(RoundFault::Failed),
        Err(fault) => Some(fault),
    }
}
