//! Four guests in four threads, each of which counts up a byte of its own in one word that they share.

ghost use Rattle.std.specs.Prelude.{◌≡◌};

use crate::kernels::{
    answered, booted, check_length, closed, ended, load, opened, process, put, same, store, taken,
};
use guest_cpu::{End, Instruction, Reg};
use kernel_calls::{Call, Reply};
use locked_core::{Blank, Boot, Cpu, History, Kernel, Name, OpenGate};
use memory_report::report_of;
use page_words::{Page, Pid, Size};
use std::marker::Brand;
use std::process::Abort;
use std::sync::Wait;
use std::thread;
use std::thread::Threads;

/// Where the word stands that the guests share, in all four processes: the first of the user range.
const WORD: u32 = 0x4000_0000;

/// The page of that word.
const PAGE: Page = Page(0x4_0000);

/// How often each guest counts.
const TIMES: u32 = 50;

/// Offers the shared page to a process.
fn offer(target: Pid) -> Call {
    Call::Offer {
        page: PAGE,
        target,
        write: true,
    }
}

/// Takes the shared page from process 0.
fn accept(giver: Pid) -> Call {
    Call::Accept {
        giver,
        giver_page: PAGE,
        page: PAGE,
    }
}

/// Makes a process with a quota of 5, and gives it the shared page.
fn give_page<N: Name, R: Wait + Abort>(
    rt: &R,
    kernel: &Kernel<N, OpenGate>,
    cpu: &mut Cpu<N>,
    child: Pid,
) {
    let root = process(rt, 0);
    let spawn = Call::Spawn { quota: 5 };
    answered(rt, kernel, cpu, root, spawn, Reply::Child(child));
    answered(rt, kernel, cpu, root, offer(child), Reply::Done);
    answered(rt, kernel, cpu, child, accept(root), Reply::Done);
}

/// Stores 0 as process 0, and gives its page to processes 1, 2 and 3: ten calls.
fn open_word<N: Name, R: Wait + Abort>(rt: &R, kernel: &Kernel<N, OpenGate>, cpu: &mut Cpu<N>) {
    answered(rt, kernel, cpu, process(rt, 0), store(0), Reply::Done);
    give_page(rt, kernel, cpu, process(rt, 1));
    give_page(rt, kernel, cpu, process(rt, 2));
    give_page(rt, kernel, cpu, process(rt, 3));
}

fn register<R: Abort>(rt: &R, number: u8) -> Reg {
    Reg::new(number).expect(rt, "a register")
}

/// Loads the byte of that number, adds 1 and stores it, so often.
fn counts_up<R: Abort>(rt: &R, number: u32) -> [Instruction; 11] {
    let address = register(rt, 0);
    let counted = register(rt, 1);
    let one = register(rt, 2);
    let times = register(rt, 3);
    let byte = register(rt, 4);
    [
        Instruction::Set(address, WORD.wrapping_add(number)),
        Instruction::Set(counted, 0),
        Instruction::Set(one, 1),
        Instruction::Set(times, TIMES),
        Instruction::Load(Size::One, byte, address),
        Instruction::Add(byte, byte, one),
        Instruction::Store(Size::One, address, byte),
        Instruction::Add(counted, counted, one),
        Instruction::JumpEq(counted, times, 10),
        Instruction::Jump(4),
        Instruction::Halt,
    ]
}

fn check_halted<R: Abort>(rt: &R, end: End) {
    same(rt, &end, &End::Halted);
}

/// Runs the guest of the process that has the CPU's number, until it halts.
fn count<N: Name, R: Wait + Abort>(
    rt: &R,
    kernel: &Kernel<N, OpenGate>,
    mut cpu: Cpu<N>,
) -> Cpu<N> {
    let number = cpu.number();
    let program = counts_up(rt, u32::from(number));
    check_halted(
        rt,
        ended(rt, kernel, &mut cpu, process(rt, number), &program, 1000),
    );
    cpu
}

/// Runs two guests in two threads.
fn count_both<N: Name + Send + Sync, R: Threads + Wait + Abort + Sync>(
    rt: &R,
    kernel: &Kernel<N, OpenGate>,
    one: Cpu<N>,
    two: Cpu<N>,
) -> (Cpu<N>, Cpu<N>) {
    thread::join(
        rt,
        move || count(rt, kernel, one),
        move || count(rt, kernel, two),
    )
}

/// Runs four guests in four threads.
fn count_all<N: Name + Send + Sync, R: Threads + Wait + Abort + Sync>(
    rt: &R,
    kernel: &Kernel<N, OpenGate>,
    low: (Cpu<N>, Cpu<N>),
    high: (Cpu<N>, Cpu<N>),
) -> ((Cpu<N>, Cpu<N>), (Cpu<N>, Cpu<N>)) {
    thread::join(
        rt,
        move || count_both(rt, kernel, low.0, low.1),
        move || count_both(rt, kernel, high.0, high.1),
    )
}

/// How many entries each CPU has.
fn entries_by_cpu(history: &History) -> [u64; 8] {
    let mut counts = [0u64; 8];
    for entry in history.entries() {
        if let Some(count) = counts.get_mut(entry.cpu as usize) {
            *count = count.wrapping_add(1);
        }
    }
    counts
}

/// Checks that a history has so many entries of each CPU, and that the processes use 12 frames after it.
fn check_history<R: Abort>(rt: &R, history: &History) {
    same(
        rt,
        &entries_by_cpu(history),
        &[111, 100, 100, 100, 0, 0, 0, 0],
    );
    same(rt, &report_of(history.core()).total(), &12);
}

/// Four guests count concurrently, and the word has all that they counted.
fn four_count<N: Name + Send + Sync, R: Threads + Wait + Abort + Sync>(
    rt: &R,
    blank: Blank<OpenGate>,
)
    requires { (blank.frames ≡ N.frames) × (blank.book ≡ N.book) }
{
    let Boot {
        kernel,
        mut cpus,
        monitors: _,
    } = opened::<N, OpenGate, R>(rt, blank);
    let three = taken(rt, &mut cpus);
    let two = taken(rt, &mut cpus);
    let one = taken(rt, &mut cpus);
    let mut zero = taken(rt, &mut cpus);
    open_word(rt, &kernel, &mut zero);
    let ((mut zero, one), (two, three)) = count_all(rt, &kernel, (zero, one), (two, three));
    let sum = Reply::Value(0x3232_3232);
    answered(rt, &kernel, &mut zero, process(rt, 0), load(), sum);
    let low = put(rt, put(rt, cpus, zero), one);
    let history = closed(rt, kernel, put(rt, put(rt, low, two), three));
    check_length(rt, &history, 411);
    check_history(rt, &history);
}

#[test]
fn four_guests_count_in_one_word(rt: HostRuntime) {
    four_count::<Brand, HostRuntime>(&rt, booted(&rt, 32, 4, 0, OpenGate));
}
