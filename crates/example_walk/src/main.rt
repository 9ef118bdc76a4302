//! An example: boots a core as a library, runs events on it, and reads the page tables in its memory as
//! a processor does.
#![tactic(auto)]

ghost use Rattle.std.specs.Prelude.{◌≡◌, ◌++◌, ◌∷◌, [], OnOk};
ghost use Rattle.std.specs.Io.KnownBytes.{Appends};
ghost use Rattle.std.specs.Option.{option_map};
ghost use Rattle.address_space.specs.View.{directory_of};
ghost use Rattle.table_walk.specs.Walk.{walk_of};
ghost use Rattle.table_walk.specs.declared.Access.TheVariants as access;
ghost use Rattle.example_walk.specs.Text.{walk_text};

use kernel_calls::{Call, Core, Event, Frame, Page, Pid, Size, Vaddr};
use std::io::Write;
use std::process::ExitCode;
use std::{fmt, io};
use table_walk::{Access, WalkEnd, walk};

/// Where the example's process stores: in the first page of the user range.
const ADDRESS: Vaddr = Vaddr(0x4000_0abc);

/// How the processor's walk of a process's directory ends; None where the process is not live.
fn walked(core: &Core, pid: Pid, address: Vaddr, access: Access) -> Option<Result<Frame, WalkEnd>>
    ensures { result ≡ option_map (λ d. walk_of core.now.bytes d address access)
        (directory_of core.now.directories pid) }
{
    let directory = core.directory(pid)?;
    Some(walk(core.memory(), directory, address, access))
}

/// The events of process 0 on CPU 0: a page is mapped, loaded from and stored to.
fn events(pid: Pid) -> [Event; 3] {
    let calls = [
        Call::Map {
            page: Page(ADDRESS.0 / 4096),
            write: true,
        },
        Call::Load {
            addr: ADDRESS,
            size: Size::Four,
        },
        Call::Store {
            addr: ADDRESS,
            size: Size::Four,
            value: 7,
        },
    ];
    calls.map(|call| Event { cpu: 0, pid, call })
}

/// How a walk ends, to be written.
#[derive(Clone, Copy)]
struct Told {
    end: Option<Result<Frame, WalkEnd>>,
}

impl fmt::Display for Told {
    ghost use Rattle.std.specs.Prelude.{Some};
    ghost use Rattle.example_walk.specs.Text.{walk_text};

    ghost output = { λ told. Some (walk_text told.end) };

    fn fmt<W: fmt::Write>(&self, f: &mut fmt::Formatter<W>) -> fmt::Result {
        match self.end {
            Some(Ok(frame)) => write!(f, "walk: frame {}", frame.0),
            Some(Err(WalkEnd::Fault(fault))) => write!(f, "walk: page fault, code {}", fault.code),
            Some(Err(WalkEnd::Outside)) => write!(f, "walk: outside memory"),
            None => write!(f, "walk: no such process"),
        }
    }
}

/// Writes how the processor's walk for a store of a process at an address ends, as a line.
///
/// An error is that of a write.
fn show<W: Write>(writer: &mut W, core: &Core, pid: Pid, address: Vaddr) -> io::Result<()>
    ensures { OnOk result (Appends (W.contents writer.old) (W.contents writer.new)
        (walk_text (option_map (λ d. walk_of core.now.bytes d address access.Write)
        (directory_of core.now.directories pid)) ++ 10 ∷ [])) }
{
    let end = walked(core, pid, address, Access::Write);
    writer.writeln(Told { end })
}

/// Runs the events one by one, and prints each reply and how the walk ends then.
fn play<W: Write>(rt: &impl Print, writer: &mut W, core: &mut Core, pid: Pid) -> io::Result<()> {
    show(writer, core, pid, ADDRESS)?;
    for event in events(pid) {
        let reply = core.step(&event);
        println!(rt; "{:?}", reply)?;
        show(writer, core, pid, ADDRESS)?;
    }
    Ok(())
}

fn main(rt: HostRuntime) -> ExitCode {
    let (Ok(mut core), Some(root)) = (Core::boot(rt.alloc(), 16), Pid::new(0)) else {
        return ExitCode::FAILURE;
    };
    match play(&rt, &mut io::writer(&rt), &mut core, root) {
        Ok(()) => ExitCode::SUCCESS,
        Err(_) => ExitCode::FAILURE,
    }
}
