//! A lazy page: what memory's words say of it, until it is stored to.

use crate::common::{process, same};
use kernel_calls::{Call, Core, Event, Frame, Pid, Reply};
use page_words::{DirWord, Page, Size, Vaddr, index_of, slot_of};
use std::process::Abort;
use std::test::Fail;

const ADDRESS: Vaddr = Vaddr(0x4000_0000);

const PAGE: Page = Page(0x40000);

/// The word of an index of a frame, or 0 outside memory.
fn word_at(core: &Core, frame: Frame, index: u32) -> u32 {
    let place = frame.0 as usize * 4096 + index as usize * 4;
    let inside = place + 4 <= core.memory().bytes().len();
    if inside {
        core.memory().read_word(place)
    } else {
        0
    }
}

/// The table word of the root's page.
fn table_word(core: &Core, root: Pid) -> u32 {
    match core.directory(root) {
        Some(directory) => {
            let table = DirWord::read(word_at(core, directory, slot_of(PAGE))).frame();
            word_at(core, table, index_of(PAGE))
        }
        None => 0,
    }
}

/// A call of the root has this reply, and leaves these flags in the page's table word: whether it names a frame
/// of its own then.
fn check(rt: &impl Abort, core: &mut Core, call: Call, reply: Reply, flags: u32, has_frame: bool) {
    let pid = process(rt, 0);
    let told = core.step(&Event { cpu: 0, pid, call });
    let word = table_word(core, pid);
    same(
        rt,
        &(told, word % 4096, word / 4096 != 0),
        &(reply, flags, has_frame),
    );
}

fn map() -> Call {
    Call::Map {
        page: PAGE,
        write: false,
    }
}

fn load() -> Call {
    Call::Load {
        addr: ADDRESS,
        size: Size::Four,
    }
}

fn store() -> Call {
    Call::Store {
        addr: ADDRESS,
        size: Size::Four,
        value: 1,
    }
}

fn protect() -> Call {
    Call::Protect {
        page: PAGE,
        write: true,
    }
}

/// The reply to a store without the right.
fn fault() -> Reply {
    Reply::Fault {
        addr: ADDRESS,
        code: 7,
    }
}

/// The first page of the user range is mapped read-only, loaded, stored to in vain, made writable, and
/// stored to.
#[test]
fn a_page_is_lazy_until_its_first_store(rt: HostRuntime) -> Result<(), Fail> {
    let mut core = Core::boot(rt.alloc(), 16)?;
    check(&rt, &mut core, map(), Reply::Done, 0x605, false);
    check(&rt, &mut core, load(), Reply::Value(0), 0x625, false);
    check(&rt, &mut core, store(), fault(), 0x625, false);
    check(&rt, &mut core, protect(), Reply::Done, 0xe25, false);
    check(&rt, &mut core, store(), Reply::Done, 0xa67, true);
    Ok(())
}
