//! Kernels over wide cores: of more frames than an image has, stored and made a core of.

ghost use Rattle.std.specs.Prelude.{◌≡◌};

use crate::kernel_tests::empty;
use crate::kernels::{answered, check_length, closed, opened, process, put, same, taken};
use image_restore::restore_wide;
use kernel_calls::{Call, Core, Event, Reply};
use locked_core::{Blank, Boot, BootFault, Cpu, Fault, Kernel, Name, OpenGate};
use page_words::{Page, Pid, Size, Vaddr};
use std::marker::Brand;
use std::process::Abort;
use std::sync::Wait;
use std::thread;
use std::thread::Threads;
use wide_image::read_wide_image;

/// How many frames the kernel has: more than 4,096.
const FRAMES: u32 = 6000;

/// In how many pages each of two processes stores.
const PAGES: u16 = 2200;

/// How many entries the kernel keeps.
const KEEPS: usize = 64;

/// The page that process 0 offers to process 1, and where process 1 accepts it.
const OFFERED: Page = Page(0x40003);

const ACCEPTED: Page = Page(0x50000);

/// The first word of the n-th page of the user range.
fn word(n: u16) -> Vaddr {
    Vaddr(0x4000_0000 + 4096 * u32::from(n))
}

/// A process stores the number of each of its first pages in it.
fn fill<N: Name, R: Wait + Abort>(
    rt: &R,
    kernel: &Kernel<N, OpenGate>,
    mut cpu: Cpu<N>,
    pid: Pid,
) -> Cpu<N> {
    for n in 0..PAGES {
        let call = Call::Store {
            addr: word(n),
            size: Size::Two,
            value: u32::from(n),
        };
        answered(rt, kernel, &mut cpu, pid, call, Reply::Done);
    }
    cpu
}

/// Two processes store in two threads.
fn fill_both<N: Name + Send + Sync, R: Threads + Wait + Abort + Sync>(
    rt: &R,
    kernel: &Kernel<N, OpenGate>,
    one: Cpu<N>,
    two: Cpu<N>,
) -> (Cpu<N>, Cpu<N>) {
    let (root, child) = (process(rt, 0), process(rt, 1));
    thread::join(
        rt,
        move || fill(rt, kernel, one, root),
        move || fill(rt, kernel, two, child),
    )
}

/// Process 0 makes process 1, and offers it a page.
fn prepare<N: Name, R: Wait + Abort>(rt: &R, kernel: &Kernel<N, OpenGate>, cpu: &mut Cpu<N>) {
    let (root, child) = (process(rt, 0), process(rt, 1));
    let spawn = Call::Spawn { quota: 2500 };
    answered(rt, kernel, cpu, root, spawn, Reply::Child(child));
    let map = Call::Map {
        page: OFFERED,
        write: true,
    };
    answered(rt, kernel, cpu, root, map, Reply::Done);
    let offer = Call::Offer {
        page: OFFERED,
        target: child,
        write: false,
    };
    answered(rt, kernel, cpu, root, offer, Reply::Done);
}

/// The image of the kernel's machine. The CPU keeps its calls.
fn stored<N: Name, R: AllocGlobal + Wait + Abort>(
    rt: &R,
    kernel: &Kernel<N, OpenGate>,
    cpu: &mut Cpu<N>,
) -> Vec<u8> {
    let calls = cpu.calls();
    let mut bytes = Vec::new(rt.alloc());
    same(rt, &kernel.store(rt, cpu, &mut bytes), &Ok(()));
    same(rt, &cpu.calls(), &calls);
    bytes
}

/// The core of an image.
fn resumed<R: AllocGlobal + Abort>(rt: &R, bytes: &[u8]) -> Core {
    let image = read_wide_image(rt.alloc(), bytes);
    let core = restore_wide(rt.alloc(), image.ok().expect(rt, "an image"));
    core.ok().expect(rt, "a core")
}

/// The reply of a core to a call of a process.
fn check_reply<R: Abort>(rt: &R, core: &mut Core, number: u8, call: Call, expected: Reply) {
    let pid = process(rt, number);
    same(rt, &core.step(&Event { cpu: 0, pid, call }), &expected);
}

/// In a core a process finds what it stored in a page.
fn check_page<R: Abort>(rt: &R, core: &mut Core, number: u8, n: u16) {
    let load = Call::Load {
        addr: word(n),
        size: Size::Two,
    };
    check_reply(rt, core, number, load, Reply::Value(u32::from(n)));
}

/// In a core process 1 accepts the offered page, and reads it.
fn check_offer<R: Abort>(rt: &R, core: &mut Core) {
    let accept = Call::Accept {
        giver: process(rt, 0),
        giver_page: OFFERED,
        page: ACCEPTED,
    };
    check_reply(rt, core, 1, accept, Reply::Done);
    let load = Call::Load {
        addr: Vaddr(0x5000_0000),
        size: Size::Two,
    };
    check_reply(rt, core, 1, load, Reply::Value(3));
}

/// A core that was made of the kernel's image has all its frames, pages and offers.
fn check_resumed<R: AllocGlobal + Abort>(rt: &R, bytes: &[u8]) {
    let mut core = resumed(rt, bytes);
    same(rt, &core.frames(), &FRAMES);
    check_page(rt, &mut core, 0, 0);
    check_page(rt, &mut core, 0, PAGES - 1);
    check_page(rt, &mut core, 1, PAGES - 1);
    check_offer(rt, &mut core);
}

/// A kernel of more than 4,096 frames has no image of versions 1 and 2.
fn check_no_image<N: Name, R: Wait + Abort>(
    rt: &R,
    kernel: &Kernel<N, OpenGate>,
    cpu: &mut Cpu<N>,
) {
    let fault = kernel.snapshot(rt, cpu).err();
    same(rt, &fault, &Some(Fault::TooManyFrames));
}

/// Two CPUs in two threads store in 4,400 pages; the machine is written, and made a core of.
fn in_threads<N: Name + Send + Sync, R: Threads + Wait + Abort + AllocGlobal + Sync>(
    rt: &R,
    blank: Blank<OpenGate>,
)
    requires { (blank.frames ≡ N.frames) × (blank.book ≡ N.book) }
{
    let Boot {
        kernel,
        mut cpus,
        monitors: _,
    } = opened::<N, OpenGate, R>(rt, blank);
    let two = taken(rt, &mut cpus);
    let mut one = taken(rt, &mut cpus);
    prepare(rt, &kernel, &mut one);
    let (mut one, two) = fill_both(rt, &kernel, one, two);
    check_no_image(rt, &kernel, &mut one);
    let bytes = stored(rt, &kernel, &mut one);
    check_resumed(rt, bytes.as_slice());
    let history = closed(rt, kernel, put(rt, put(rt, cpus, one), two));
    check_length(rt, &history, KEEPS);
}

/// Boots a wide kernel of so many frames that keeps only its last entries.
fn booted<R: AllocGlobal + Wait + Abort>(
    rt: &R,
    frames: u32,
    cpus: u8,
) -> Result<Blank<OpenGate>, BootFault> {
    Kernel::<Brand, OpenGate>::boot_wide_keeping(rt, rt.alloc(), frames, cpus, 1, OpenGate, KEEPS)
}

/// No wide kernel is booted of so many frames and CPUs.
fn check_refused<R: AllocGlobal + Wait + Abort>(rt: &R, frames: u32, cpus: u8, fault: BootFault) {
    match booted(rt, frames, cpus) {
        Ok(blank) => {
            empty::<Brand, R>(rt, blank);
            panic!(rt; "{frames} frames and {cpus} CPUs were taken");
        }
        Err(refused) => same(rt, &refused, &fault),
    }
}

#[test]
fn a_wide_kernel_is_stored_and_resumed(rt: HostRuntime) {
    in_threads::<Brand, HostRuntime>(&rt, booted(&rt, FRAMES, 2).expect(&rt, "not booted"));
}

#[test]
fn a_wide_kernel_has_16_to_1048576_frames(rt: HostRuntime) {
    check_refused(&rt, 15, 1, BootFault::BadSize);
    check_refused(&rt, 1_048_577, 1, BootFault::BadSize);
    check_refused(&rt, 1_048_576, 9, BootFault::BadCount);
}
