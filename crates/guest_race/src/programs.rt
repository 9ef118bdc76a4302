//! What is done before the guests run, and what each guest does.

ghost use Rattle.std.specs.Prelude.{◌≡◌, ◌<◌, ◌≤◌};
ghost use Rattle.guest_race.specs.Programs.{opening_events, race_program};

use guest_cpu::{Instruction, Reg};
use kernel_calls::{Call, Event};
use page_words::{Page, Pid, Size, Vaddr};

/// Where the number stands that the guests count up.
const NUMBER: Vaddr = Vaddr(0x4000_0000);

/// The page of that number, in both processes.
const PAGE: Page = Page(0x4_0000);

fn register(number: u8) -> Reg
    requires { number < 8 }
    ensures { result ≡ number }
{
    Reg::new(number).unwrap()
}

/// The calls before the guests run: process 0 stores the first number, makes process 1 and offers it
/// the page, which process 1 accepts.
pub fn opening() -> [Event; 4]
    ensures { result ≡ opening_events }
{
    let root = Pid::new(0).unwrap();
    let child = Pid::new(1).unwrap();
    let store = Call::Store {
        addr: NUMBER,
        size: Size::Four,
        value: 0,
    };
    let offer = Call::Offer {
        page: PAGE,
        target: child,
        write: true,
    };
    let accept = Call::Accept {
        giver: root,
        giver_page: PAGE,
        page: PAGE,
    };
    [
        event_by(root, store),
        event_by(root, Call::Spawn { quota: 5 }),
        event_by(root, offer),
        event_by(child, accept),
    ]
}

/// An event of CPU 0.
fn event_by(pid: Pid, call: Call) -> Event
    ensures { result ≡ record { cpu = 0; pid = pid; call = call } }
{
    Event { cpu: 0, pid, call }
}

/// A guest's program: it waits until the number is `first`, stores the next one, waits for the one after
/// that, and so on, until it has stored ten.
pub fn program_of(first: u32) -> [Instruction; 13]
    requires { first ≤ 1 }
    ensures { result ≡ race_program first }
{
    let address = register(0);
    let awaited = register(1);
    let read = register(2);
    let one = register(3);
    let end = register(4);
    [
        Instruction::Set(address, NUMBER.0),
        Instruction::Set(awaited, first),
        Instruction::Set(one, 1),
        Instruction::Set(end, first + 20),
        Instruction::Load(Size::Four, read, address),
        Instruction::JumpEq(read, awaited, 7),
        Instruction::Jump(4),
        Instruction::Add(awaited, awaited, one),
        Instruction::Store(Size::Four, address, awaited),
        Instruction::Add(awaited, awaited, one),
        Instruction::JumpEq(awaited, end, 12),
        Instruction::Jump(4),
        Instruction::Halt,
    ]
}
