//! A core by its calls.
use crate::common::{process, same};
use kernel_calls::{
    BootFault, Call, Core, Ended, Event, Frame, Outcome, Pid, Reply, Role, WideFault,
};
use page_words::{Page, Size, Vaddr};
use process_table::Cause;
use std::process::Abort;
use std::test::Fail;

const PAGE: Page = Page(0x40000);

const SIZE: Size = Size::Four;

fn event(pid: Pid, call: Call) -> Event {
    Event { cpu: 0, pid, call }
}

/// The root's quota on a core of so many frames.
fn booted<R: AllocGlobal + Abort>(rt: &R, frames: u32) -> Result<u32, BootFault> {
    let core = Core::boot(rt.alloc(), frames)?;
    let container = core.container(process(rt, 0));
    Ok(container.map(|container| container.quota).unwrap_or(0))
}

#[test]
fn boots_16_to_4096_frames(rt: HostRuntime) {
    same(
        &rt,
        &[0, 15, 16, 4096, 4097].map(|frames| booted(&rt, frames)),
        &[
            Err(BootFault::BadSize),
            Err(BootFault::BadSize),
            Ok(15),
            Ok(4095),
            Err(BootFault::BadSize),
        ],
    );
}

/// The root's quota on a wide core of so many frames.
fn booted_wide<R: AllocGlobal + Abort>(rt: &R, frames: u32) -> Result<u32, WideFault> {
    let core = Core::boot_wide(rt.alloc(), frames)?;
    let container = core.container(process(rt, 0));
    Ok(container.map(|container| container.quota).unwrap_or(0))
}

#[test]
fn boots_wide_past_4096_frames(rt: HostRuntime) {
    same(
        &rt,
        &[15, 16, 5000, 1048577].map(|frames| booted_wide(&rt, frames)),
        &[
            Err(WideFault::BadSize),
            Ok(15),
            Ok(4999),
            Err(WideFault::BadSize),
        ],
    );
}

#[test]
fn maps_stores_loads_and_unmaps(rt: HostRuntime) -> Result<(), Fail> {
    let mut core = Core::boot(rt.alloc(), 16)?;
    let root = process(&rt, 0);
    let (page, addr, size) = (PAGE, Vaddr(0x4000_0ffc), SIZE);
    let value = 0xdead_beef;
    let events = [
        event(root, Call::Map { page, write: true }),
        event(root, Call::Store { addr, size, value }),
        event(root, Call::Load { addr, size }),
        event(root, Call::Unmap { page }),
        event(root, Call::Load { addr, size }),
    ];
    let mut replies = [Reply::Done; 5];
    core.run(&events, &mut replies);
    let value = Reply::Value(0xdead_beef);
    same(
        &rt,
        &replies,
        &[
            Reply::Done,
            Reply::Done,
            value,
            Reply::Done,
            Reply::Value(0),
        ],
    );
    Ok(())
}

/// The role of the frame of the root's directory, of which there is one.
fn role_of_directory(rt: &impl Abort, core: &Core) -> Role {
    let directory = core.directory(process(rt, 0)).expect(rt, "a directory");
    assert!(rt; directory.0 < core.frames());
    core.role(directory)
}

#[test]
fn boots_with_a_directory_in_memory(rt: HostRuntime) -> Result<(), Fail> {
    let core = Core::boot(rt.alloc(), 16)?;
    let pid = process(&rt, 0);
    same(
        &rt,
        &role_of_directory(&rt, &core),
        &Role::Directory { pid },
    );
    same(&rt, &core.role(Frame(0)), &Role::Reserved);
    same(&rt, &core.memory().bytes().len(), &65536);
    Ok(())
}

/// A call of the root is decided with this charge, and committed with this reply.
fn decide(rt: &impl Abort, core: &mut Core, call: Call, used: u32, reply: Reply) {
    let decision = core.decide(&event(process(rt, 0), call));
    same(rt, &decision.used_after, &used);
    same(rt, &core.commit(decision), &reply);
}

/// A call of the root is carried out with this charge and this reply.
fn perform(rt: &impl Abort, core: &mut Core, call: Call, used: u32, reply: Reply) {
    let outcome = core.perform(&event(process(rt, 0), call));
    same(
        rt,
        &outcome,
        &Outcome {
            reply,
            used_after: used,
        },
    );
}

fn store(addr: Vaddr, value: u32) -> Call {
    let size = SIZE;
    Call::Store { addr, size, value }
}

fn load(addr: Vaddr) -> Call {
    Call::Load { addr, size: SIZE }
}

#[test]
fn counts_what_it_charges(rt: HostRuntime) -> Result<(), Fail> {
    let mut core = Core::boot(rt.alloc(), 16)?;
    let (page, write) = (PAGE, false);
    decide(&rt, &mut core, Call::Map { page, write }, 3, Reply::Done);
    let page = Page(0x40400);
    decide(&rt, &mut core, Call::Map { page, write }, 5, Reply::Done);
    decide(&rt, &mut core, Call::Unmap { page }, 3, Reply::Done);
    let refused = Reply::Refused(Cause::RootExit);
    decide(&rt, &mut core, Call::Exit, 3, refused);
    Ok(())
}

#[test]
fn carries_out_at_once_or_by_its_plan(rt: HostRuntime) -> Result<(), Fail> {
    let mut core = Core::boot(rt.alloc(), 16)?;
    let (first, across) = (Vaddr(0x4000_0000), Vaddr(0x4000_0ffe));
    let addr = Vaddr(0x3fff_fffc);
    let fault = Reply::Fault { addr, code: 4 };
    perform(&rt, &mut core, store(across, 0xdead_beef), 4, Reply::Done);
    perform(&rt, &mut core, store(first, 7), 4, Reply::Done);
    perform(&rt, &mut core, load(across), 4, Reply::Value(0xdead_beef));
    perform(&rt, &mut core, load(first), 4, Reply::Value(7));
    perform(&rt, &mut core, load(addr), 4, fault);
    Ok(())
}

fn page_ended(ended: &Ended) -> Option<Page> {
    match ended {
        Ended::Page { page, .. } => Some(*page),
        _ => None,
    }
}

/// Checks that a call of the root is done, and that it makes the translations of that page stale, or of no page.
fn ends(rt: &impl Abort, core: &mut Core, call: Call, page: Option<Page>) {
    let told = core.step_ending(&event(process(rt, 0), call));
    same(rt, &told.0, &Reply::Done);
    same(rt, &page_ended(&told.1), &page);
}

#[test]
fn tells_which_translations_end(rt: HostRuntime) -> Result<(), Fail> {
    let mut core = Core::boot(rt.alloc(), 16)?;
    let page = PAGE;
    ends(&rt, &mut core, Call::Map { page, write: true }, None);
    ends(&rt, &mut core, store(Vaddr(0x4000_0000), 7), Some(page));
    ends(&rt, &mut core, store(Vaddr(0x4000_0004), 7), None);
    ends(
        &rt,
        &mut core,
        Call::Protect { page, write: false },
        Some(page),
    );
    ends(&rt, &mut core, Call::Protect { page, write: false }, None);
    ends(&rt, &mut core, Call::Unmap { page }, Some(page));
    Ok(())
}

/// `rt try --test --fail-alloc N` refuses the Nth allocation of this test alone, and each is one
/// of `boot`. A boot that meets it answers NoMemory, the same call with memory then boots, and a
/// line is printed that says so.
#[test]
fn boots_after_want_of_memory(rt: HostRuntime) -> Result<(), Fail> {
    let first = Core::boot(rt.alloc(), 16).map(|core| core.frames());
    if first.is_err() {
        same(&rt, &first, &Err(BootFault::NoMemory));
        let again = Core::boot(rt.alloc(), 16).map(|core| core.frames());
        same(&rt, &again, &Ok(16));
        println!(rt; "NoMemory, and then a core")?;
    }
    Ok(())
}
