//! Guests on a core and on a port of the tests' own.

ghost use Rattle.std.specs.Prelude.{◌≡◌, true, if◌then◌else◌, Ok, Err};
ghost use Rattle.kernel_calls.specs.declared.calls.Reply.TheVariants.{Value};

use crate::common::{process, same};
use guest_cpu::{End, Guest, Instruction, Port, PortFault, Reg, run};
use kernel_calls::{Call, Cause, Core, Event, Reply};
use page_words::{Size, Vaddr};
use std::process::Abort;

/// Answers its first call with 7, and fails at each one after that.
#[derive(Drop)]
struct AnswersOnce {
    has_answered: bool,
}

impl Port for AnswersOnce {
    ghost step = { λ before event answer after. (answer ≡ (if before.has_answered then Err 9 else Ok (Value 7)))
        × (after.has_answered ≡ true) };

    fn call(&mut self, _event: Event) -> Result<Reply, PortFault> {
        let answer = if self.has_answered {
            Err(PortFault(9))
        } else {
            Ok(Reply::Value(7))
        };
        self.has_answered = true;
        answer
    }
}

/// A guest of the root on CPU 0, which has not begun.
fn root_guest<R: Abort>(rt: &R) -> Guest {
    Guest::new(0, process(rt, 0))
}

fn register<R: Abort>(rt: &R, number: u8) -> Reg {
    Reg::new(number).expect(rt, "a register")
}

/// The registers 0 to 7.
fn registers<R: Abort>(rt: &R) -> [Reg; 8] {
    [
        register(rt, 0),
        register(rt, 1),
        register(rt, 2),
        register(rt, 3),
        register(rt, 4),
        register(rt, 5),
        register(rt, 6),
        register(rt, 7),
    ]
}

fn booted<R: AllocGlobal + Abort>(rt: &R) -> Core {
    Core::boot(rt.alloc(), 16).ok().expect(rt, "memory")
}

/// Runs a guest on a core for so many turns.
fn run_on(core: &mut Core, guest: &mut Guest, program: &[Instruction], turns: u32) -> End {
    run(guest, program, turns, core)
}

/// Stores 7 at an address and loads it again, in five instructions.
fn stores_and_loads(address: u32, r: &[Reg; 8]) -> [Instruction; 5] {
    [
        Instruction::Set(r[1], address),
        Instruction::Set(r[2], 7),
        Instruction::Store(Size::Four, r[1], r[2]),
        Instruction::Load(Size::Four, r[3], r[1]),
        Instruction::Halt,
    ]
}

/// The outcome of a guest of the root: how it ended, its counter, and two of its registers.
type Outcome = (End, usize, [u32; 2]);

/// Returns a guest's outcome, with the two registers looked at.
fn came_to(guest: &Guest, end: End, looked_at: [Reg; 2]) -> Outcome {
    let values = looked_at.map(|register| guest.register(register));
    (end, guest.counter(), values)
}

/// Runs a program on a core of 16 frames for so many turns, and reads two registers.
fn ran<R: AllocGlobal + Abort>(
    rt: &R,
    program: &[Instruction],
    turns: u32,
    looked_at: [Reg; 2],
) -> Outcome {
    let mut core = booted(rt);
    let mut guest = root_guest(rt);
    let end = run(&mut guest, program, turns, &mut core);
    came_to(&guest, end, looked_at)
}

/// Checks the outcome of a program on a core of 16 frames.
fn check_run<R: AllocGlobal + Abort>(
    rt: &R,
    program: &[Instruction],
    turns: u32,
    looked_at: [Reg; 2],
    want: Outcome,
) {
    same(rt, &ran(rt, program, turns, looked_at), &want);
}

#[test]
fn names_eight_registers(rt: HostRuntime) {
    let numbers = [0, 1, 2, 3, 4, 5, 6, 7, 8, 255].map(|number| Reg::new(number).map(Reg::number));
    same(
        &rt,
        &numbers,
        &[
            Some(0),
            Some(1),
            Some(2),
            Some(3),
            Some(4),
            Some(5),
            Some(6),
            Some(7),
            None,
            None,
        ],
    );
}

/// A guest that has not begun has zeros.
fn check_zeros<R: Abort>(rt: &R, guest: &Guest, registers: [Reg; 8]) {
    let values = registers.map(|register| guest.register(register));
    same(rt, &(values, guest.counter()), &([0; 8], 0));
}

#[test]
fn begins_with_zeros(rt: HostRuntime) {
    check_zeros(&rt, &root_guest(&rt), registers(&rt));
}

#[test]
fn stores_and_loads_within_its_turns(rt: HostRuntime) {
    let r = registers(&rt);
    let program = stores_and_loads(0x4000_0000, &r);
    let halted = (End::Halted, 4, [7, 7]);
    let out_of_turns = (End::OutOfTurns, 4, [7, 7]);
    check_run(&rt, &program, 5, [r[2], r[3]], halted);
    check_run(&rt, &program, 4, [r[2], r[3]], out_of_turns);
}

#[test]
fn stops_at_a_fault(rt: HostRuntime) {
    let r = registers(&rt);
    let program = stores_and_loads(0x3fff_fffc, &r);
    let fault = Reply::Fault {
        addr: Vaddr(0x3fff_fffc),
        code: 6,
    };
    let want = (End::Stopped(fault), 2, [0, 0]);
    check_run(&rt, &program, 5, [r[3], r[4]], want);
}

#[test]
fn sees_what_is_left_of_its_quota(rt: HostRuntime) {
    let r = registers(&rt);
    let program = [
        Instruction::Sys(r[1], Call::Spawn { quota: 5 }),
        Instruction::Sys(r[2], Call::Quota),
        Instruction::Jump(1000),
    ];
    let want = (End::Halted, 1000, [1, 9]);
    check_run(&rt, &program, 3, [r[1], r[2]], want);
}

#[test]
fn stops_at_a_refusal(rt: HostRuntime) {
    let r = registers(&rt);
    let program = [Instruction::Sys(r[1], Call::Exit)];
    let want = (End::Stopped(Reply::Refused(Cause::RootExit)), 0, [0, 0]);
    check_run(&rt, &program, 1, [r[1], r[2]], want);
}

/// Runs a program on a port that answers once, for so many turns, and reads two registers.
fn ran_once<R: Abort>(rt: &R, program: &[Instruction], turns: u32, looked_at: [Reg; 2]) -> Outcome {
    let mut port = AnswersOnce {
        has_answered: false,
    };
    let mut guest = root_guest(rt);
    let end = run(&mut guest, program, turns, &mut port);
    came_to(&guest, end, looked_at)
}

/// Checks the outcome of a program on a port that answers once.
fn check_once<R: Abort>(
    rt: &R,
    program: &[Instruction],
    turns: u32,
    looked_at: [Reg; 2],
    want: Outcome,
) {
    same(rt, &ran_once(rt, program, turns, looked_at), &want);
}

#[test]
fn ends_where_its_port_fails(rt: HostRuntime) {
    let r = registers(&rt);
    let program = [
        Instruction::Load(Size::Four, r[1], r[0]),
        Instruction::Load(Size::Four, r[2], r[0]),
    ];
    let want = (End::PortFault(PortFault(9)), 1, [7, 0]);
    check_once(&rt, &program, 2, [r[1], r[2]], want);
}

/// How a guest ends that runs five turns on a core, one at a time, with a run of none before the last.
fn in_single_turns<R: AllocGlobal + Abort>(
    rt: &R,
    guest: &mut Guest,
    program: &[Instruction],
) -> [End; 6] {
    let mut core = booted(rt);
    [1, 1, 1, 1, 0, 1].map(|turns| run_on(&mut core, guest, program, turns))
}

/// Checks that a program runs out of turns five times and then halts, and its outcome.
fn check_single_turns<R: AllocGlobal + Abort>(
    rt: &R,
    program: &[Instruction],
    looked_at: [Reg; 2],
    want: Outcome,
) {
    let mut guest = root_guest(rt);
    let mut ends = [End::OutOfTurns; 6];
    ends[5] = End::Halted;
    same(rt, &in_single_turns(rt, &mut guest, program), &ends);
    same(rt, &came_to(&guest, End::Halted, looked_at), &want);
}

#[test]
fn runs_on_where_it_ran_out(rt: HostRuntime) {
    let r = registers(&rt);
    let program = stores_and_loads(0x4000_0000, &r);
    let want = (End::Halted, 4, [7, 7]);
    check_single_turns(&rt, &program, [r[2], r[3]], want);
}

#[test]
fn fills_its_quota(rt: HostRuntime) {
    let r = registers(&rt);
    let program = [
        Instruction::Set(r[1], 0x4000_0000),
        Instruction::Set(r[2], 0x1000),
        Instruction::Store(Size::One, r[1], r[2]),
        Instruction::Add(r[1], r[1], r[2]),
        Instruction::Jump(2),
    ];
    let want = (
        End::Stopped(Reply::Refused(Cause::Quota)),
        2,
        [0x4000_d000, 0x1000],
    );
    check_run(&rt, &program, 1000, [r[1], r[2]], want);
}

#[test]
fn jumps_where_two_are_equal(rt: HostRuntime) {
    let r = registers(&rt);
    let program = [
        Instruction::Set(r[1], 0xffff_ffff),
        Instruction::Set(r[2], 2),
        Instruction::Add(r[3], r[1], r[2]),
        Instruction::JumpEq(r[1], r[2], 7),
        Instruction::Set(r[4], 1),
        Instruction::JumpEq(r[3], r[4], 9),
    ];
    let want = (End::Halted, 9, [2, 1]);
    check_run(&rt, &program, 6, [r[2], r[3]], want);
}
