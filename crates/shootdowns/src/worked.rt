//! Worked windows, as theorems on cores that boot: the rules of windows apply one after another.

ghost use Rattle.std.specs.Prelude.{◌≡◌, IfOk};
ghost use Rattle.kernel_calls.specs.declared.calls.Call.TheVariants as call;
ghost use Rattle.page_words.specs.declared.addresses.Size.TheVariants.{One};
ghost use Rattle.shootdowns.specs.Worked.{WorkedProtect, WorkedWindow, WorkedZeros};

use kernel_calls::{BootFault, Call, Core, Event};
use page_words::{Page, Pid, Size, Vaddr};
use std::alloc::Global;

/// An event of a process on CPU 0.
fn event(pid: Pid, call: Call) -> Event
    ensures { result ≡ record { cpu = 0; pid = pid; call = call } }
{
    Event { cpu: 0, pid, call }
}

/// The Store of a 7 at an address.
fn store_of_seven(addr: Vaddr) -> Call
    ensures { result ≡ call.Store addr One 7 }
{
    let (size, value) = (Size::One, 7);
    Call::Store { addr, size, value }
}

/// Boots a core of 16 frames, stores a byte to each of two pages of its root, unmaps the first, and clears and sets
/// accessed in the directory word that leads there. States that a processor may have cached the page's translation before
/// the Unmap, and load and store by it before it invalidates. These steps are a window, whose order has both accesses
/// before the Unmap.
///
/// BadSize never comes; NoMemory if there is none for the core.
pub fn worked_window(alloc: Global) -> Result<Core, BootFault>
    ensures { IfOk result WorkedWindow }
{
    let mut core = Core::boot(alloc, 16)?;
    let root = Pid::new(0).unwrap();
    core.step(&event(root, store_of_seven(Vaddr(0x4000_0000))));
    core.step(&event(root, store_of_seven(Vaddr(0x4000_1000))));
    core.stands();
    let page = Page(0x40000);
    core.step_ending(&event(root, Call::Unmap { page }));
    core.stands();
    core.set_walked(root, page, false);
    core.set_walked(root, page, true);
    Ok(core)
}

/// Boots a core of 16 frames, stores a byte to a page of its root, forks, and loads the byte from the child's copy, which
/// is clean. States that a processor may have cached its translation before a Protect, and that of the root's page. Then one
/// loads from the copy by its walk, and the other stores by what it cached and sets dirty. These steps are a window, whose
/// order has both accesses before the Protect. In the window of a further call the processor forgets what it still has.
///
/// BadSize never comes; NoMemory if there is none for the core.
pub fn worked_protect(alloc: Global) -> Result<Core, BootFault>
    ensures { IfOk result WorkedProtect }
{
    let mut core = Core::boot(alloc, 16)?;
    let root = Pid::new(0).unwrap();
    let child = Pid::new(1).unwrap();
    let addr = Vaddr(0x4000_0000);
    let size = Size::One;
    core.step(&event(root, store_of_seven(addr)));
    core.stands();
    core.step(&event(root, Call::Fork { quota: 8 }));
    core.stands();
    core.step(&event(child, Call::Load { addr, size }));
    core.stands();
    let page = Page(0x40000);
    core.step_ending(&event(child, Call::Protect { page, write: false }));
    core.stands();
    Ok(core)
}

/// Boots a core of 16 frames. Its root maps a page, which is lazy, loads from it, spawns a child and offers it the page, and
/// the child accepts it. States that a processor may have cached the lazy page's translation before the Accept, which ends
/// it. Until it invalidates, it loads by it the zero that is there after the Accept too.
///
/// BadSize never comes; NoMemory if there is none for the core.
pub fn worked_zeros(alloc: Global) -> Result<Core, BootFault>
    ensures { IfOk result WorkedZeros }
{
    let mut core = Core::boot(alloc, 16)?;
    let root = Pid::new(0).unwrap();
    let child = Pid::new(1).unwrap();
    let page = Page(0x40000);
    let (addr, size) = (Vaddr(0x4000_0000), Size::One);
    core.step(&event(root, Call::Map { page, write: true }));
    core.stands();
    core.step(&event(root, Call::Load { addr, size }));
    core.stands();
    core.step(&event(root, Call::Spawn { quota: 8 }));
    core.stands();
    let (target, write) = (child, true);
    core.step(&event(
        root,
        Call::Offer {
            page,
            target,
            write,
        },
    ));
    core.stands();
    core.step_ending(&event(child, accept_of(root, page)));
    core.stands();
    Ok(core)
}

/// The Accept of a page of a process, at page 0x50000.
fn accept_of(giver: Pid, giver_page: Page) -> Call
    ensures { result ≡ call.Accept giver giver_page 0x50000 }
{
    let page = Page(0x50000);
    Call::Accept {
        giver,
        giver_page,
        page,
    }
}
