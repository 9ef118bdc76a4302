//! Two helpers in two threads that audit an image: by themselves, and while a call is held under the lock.

ghost use Rattle.std.specs.Prelude.{◌≡◌, All};
ghost use Rattle.integrity_checker.specs.Steps.{IsOf};

use crate::kernels::{
    answered, booted, check_length, closed, image_of, opened, process, same, store,
};
use crate::two_helpers::{begun, check_sound, put, stepped};
use crate::{kernels, two_helpers};
use integrity_checker::{Audit, Helper};
use kernel_calls::{Core, Reply};
use locked_core::{Blank, Boot, Cpu, Gate, Kernel, Name, Point};
use memory_image::Image;
use std::alloc::{AllocError, Global};
use std::marker::Brand;
use std::process::Abort;
use std::sync::atomic::{AtomicU64, Ordering};
use std::sync::{Arc, Wait};
use std::test::Fail;
use std::thread;
use std::thread::Threads;

/// How often a flag is looked at before a test gives up.
const LOOKS: u64 = 1_000_000_000;

/// Polls a number until it is so high, and returns whether it was before the polls were spent.
fn is_reached(number: &AtomicU64, height: u64) -> bool {
    for _ in 0..LOOKS {
        if number.load(Ordering::SeqCst) >= height {
            return true;
        }
    }
    false
}

/// What a gate and the helpers signal to each other.
#[derive(Drop)]
struct Flags {
    /// 1 where calls are to be held.
    armed: AtomicU64,
    /// 1 where a call is held at Locked, so that the helpers may begin.
    held: AtomicU64,
    /// How many helpers have ended.
    ended: AtomicU64,
    /// 1 where the call went on because both had ended, and not because the looks were spent.
    let_go: AtomicU64,
}

impl Flags {
    /// No call is to be held, and nothing has ended.
    fn new() -> Flags {
        Flags {
            armed: AtomicU64::new(0),
            held: AtomicU64::new(0),
            ended: AtomicU64::new(0),
            let_go: AtomicU64::new(0),
        }
    }
}

/// Holds each call at Locked, from when it is armed, until two helpers have ended.
#[derive(Drop)]
struct HeldGate {
    flags: Arc<Flags, Global>,
}

impl Gate for HeldGate {
    fn reach(&self, point: Point) {
        if point == Point::Locked && self.flags.armed.load(Ordering::SeqCst) == 1 {
            self.flags.held.store(1, Ordering::SeqCst);
            if is_reached(&self.flags.ended, 2) {
                self.flags.let_go.store(1, Ordering::SeqCst);
            }
        }
    }
}

/// Stores a number as process 0, which must be done.
fn stored<N: Name, R: Wait + Abort>(
    rt: &R,
    kernel: &Kernel<N, HeldGate>,
    mut cpu: Cpu<N>,
) -> Cpu<N> {
    answered(rt, kernel, &mut cpu, process(rt, 0), store(7), Reply::Done);
    cpu
}

/// Waits for the held call, and checks processes until no number is left. Returns whether the call was held, and how
/// many numbers were checked.
fn judge(audit: &Audit, helper: Helper, flags: &Flags) -> (Helper, bool, u64)
    requires { IsOf audit.now helper }
    ensures { IsOf audit.now result.0 }
{
    let held = is_reached(&flags.held, 1);
    let (helper, checked) = stepped(audit, helper, 65);
    flags.ended.fetch_add(1, Ordering::SeqCst);
    (helper, held, checked)
}

/// Two helpers check in two threads.
fn judge_both<R: Threads + Sync>(
    rt: &R,
    audit: &Audit,
    one: Helper,
    two: Helper,
    flags: &Flags,
) -> ((Helper, bool, u64), (Helper, bool, u64))
    requires { IsOf audit.now one × IsOf audit.now two }
    ensures { IsOf audit.now result.0.0 × IsOf audit.now result.1.0 }
{
    thread::join(
        rt,
        move || -> (Helper, bool, u64)
            requires { IsOf audit.now one }
            ensures { IsOf audit.entry.now result.0 }
        { judge(audit, one, flags) },
        move || -> (Helper, bool, u64)
            requires { IsOf audit.now two }
            ensures { IsOf audit.entry.now result.0 }
        { judge(audit, two, flags) },
    )
}

/// Two helpers check in two threads, while a CPU's call is held until they have ended.
fn judge_beside<N: Name + Send + Sync, R: Threads + Wait + Abort + Sync>(
    rt: &R,
    kernel: &Kernel<N, HeldGate>,
    cpu: Cpu<N>,
    audit: &Audit,
    one: Helper,
    two: Helper,
    flags: &Flags,
) -> (Cpu<N>, ((Helper, bool, u64), (Helper, bool, u64)))
    requires { IsOf audit.now one × IsOf audit.now two }
    ensures { IsOf audit.now result.1.0.0 × IsOf audit.now result.1.1.0 }
{
    thread::join(
        rt,
        move || stored(rt, kernel, cpu),
        move || -> ((Helper, bool, u64), (Helper, bool, u64))
            requires { IsOf audit.now one × IsOf audit.now two }
            ensures { IsOf audit.entry.now result.0.0 × IsOf audit.entry.now result.1.0 }
        { judge_both(rt, audit, one, two, flags) },
    )
}

/// Both helpers saw that they may begin, and checked all 64 numbers together.
fn check_judged<R: Abort>(rt: &R, held: (bool, bool), checked: (u64, u64)) {
    let found = (held, checked.0.wrapping_add(checked.1));
    same(rt, &found, &((true, true), 64));
}

/// The held call went on because both helpers had ended.
fn check_let_go<R: Abort>(rt: &R, flags: &Flags) {
    same(rt, &flags.let_go.load(Ordering::SeqCst), &1);
}

/// Audits an image by two helpers in two threads.
fn audit_in_threads<R: AllocGlobal + Threads + Abort + Sync>(rt: &R, image: Image, flags: &Flags) {
    let (audit, mut helpers) = begun(rt, image);
    let two = two_helpers::taken(rt, &audit, &mut helpers);
    let one = two_helpers::taken(rt, &audit, &mut helpers);
    let (first, second) = judge_both(rt, &audit, one, two, flags);
    check_judged(rt, (first.1, second.1), (first.2, second.2));
    let helpers = put(rt, &audit, helpers, first.0);
    let helpers = put(rt, &audit, helpers, second.0);
    check_sound(rt, audit, helpers);
}

#[test]
fn two_helpers_audit_in_two_threads(rt: HostRuntime) -> Result<(), Fail> {
    let core = Core::boot(rt.alloc(), 16)?;
    let flags = Flags::new();
    flags.held.store(1, Ordering::SeqCst);
    audit_in_threads(&rt, Image::of(rt.alloc(), &core)?, &flags);
    Ok(())
}

/// The helpers of an audit, one after the other, after they checked in two threads during a held call.
fn judged<N: Name + Send + Sync, R: Threads + Wait + Abort + Sync>(
    rt: &R,
    kernel: &Kernel<N, HeldGate>,
    cpu: Cpu<N>,
    audit: &Audit,
    mut helpers: Vec<Helper>,
    flags: &Flags,
) -> (Cpu<N>, Vec<Helper>)
    requires { All (λ h. IsOf audit.now h) helpers.items }
    ensures { All (λ h. IsOf audit.now h) result.1.items }
{
    let two = two_helpers::taken(rt, audit, &mut helpers);
    let one = two_helpers::taken(rt, audit, &mut helpers);
    let (cpu, (first, second)) = judge_beside(rt, kernel, cpu, audit, one, two, flags);
    check_judged(rt, (first.1, second.1), (first.2, second.2));
    check_let_go(rt, flags);
    let helpers = put(rt, audit, helpers, first.0);
    (cpu, put(rt, audit, helpers, second.0))
}

/// Audits an image by two helpers in two threads, while a call of that CPU is held until they have ended.
fn audit_beside<N: Name + Send + Sync, R: AllocGlobal + Threads + Wait + Abort + Sync>(
    rt: &R,
    kernel: &Kernel<N, HeldGate>,
    cpu: Cpu<N>,
    image: Image,
    flags: &Flags,
) -> Cpu<N> {
    let (audit, helpers) = begun(rt, image);
    let (cpu, helpers) = judged(rt, kernel, cpu, &audit, helpers, flags);
    check_sound(rt, audit, helpers);
    cpu
}

/// A store, an image, and a second store that is held while the image is audited.
fn held<N: Name + Send + Sync, R: AllocGlobal + Threads + Wait + Abort + Sync>(
    rt: &R,
    blank: Blank<HeldGate>,
    flags: &Flags,
)
    requires { (blank.frames ≡ N.frames) × (blank.book ≡ N.book) }
{
    let Boot {
        kernel,
        mut cpus,
        monitors: _,
    } = opened::<N, HeldGate, R>(rt, blank);
    let cpu = kernels::taken(rt, &mut cpus);
    let mut cpu = stored(rt, &kernel, cpu);
    let image = image_of(rt, &kernel, &mut cpu);
    flags.armed.store(1, Ordering::SeqCst);
    let cpu = audit_beside(rt, &kernel, cpu, image, flags);
    check_length(rt, &closed(rt, kernel, kernels::put(rt, cpus, cpu)), 2);
}

/// A gate that holds no call yet, and what it shares with the test.
fn new_gate(alloc: Global) -> Result<(Arc<Flags, Global>, HeldGate), AllocError> {
    let flags = Arc::new(alloc, Flags::new())?;
    let gate = HeldGate {
        flags: Arc::try_clone(&flags)?,
    };
    Ok((flags, gate))
}

#[test]
fn two_helpers_audit_while_a_call_is_held(rt: HostRuntime) -> Result<(), Fail> {
    let (flags, gate) = new_gate(rt.alloc())?;
    held::<Brand, HostRuntime>(&rt, booted(&rt, 16, 1, 0, gate), &flags);
    Ok(())
}
