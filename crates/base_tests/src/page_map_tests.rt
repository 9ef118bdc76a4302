//! Page maps by their calls.
ghost use Rattle.std.specs.Prelude.{◌≡◌, ◌+◌, ◌<◌, ◌^◌, IfOk, length};
ghost use Rattle.phys_memory.specs.Bytes.{frame_bytes};
ghost use Rattle.page_map.specs.Entries.{IsPageMap, IsFreshTable};

use crate::comparing::same;
use page_map::{
    PageEntry, clear_entry, entry, has_table, link_table, next_page, pages, set_entry,
    words_present,
};
use page_words::{Frame, Page};
use phys_memory::{Memory, MemoryFault};
use std::alloc::Global;
use std::process::Abort;
use std::test::Fail;

/// A memory of 16 blank frames, of which frame 1 is a directory that maps no page.
fn empty_map(alloc: Global) -> Result<Memory, MemoryFault>
    ensures map { IfOk result (λ memory. IsPageMap memory 1) }
    ensures fresh { IfOk result (λ memory. IsFreshTable (frame_bytes memory) 1 256 2) }
    ensures length { IfOk result (λ memory. length memory ≡ 65536) }
{
    let memory = Memory::new(alloc, 16)?;
    Ok(memory)
}

/// The first page of the user range, and what it is mapped to.
const PAGE: Page = Page(0x40000);

const MAPPED: PageEntry = PageEntry {
    frame: Frame(3),
    write: true,
    may: true,
    accessed: false,
    dirty: false,
    lazy: false,
};

#[test]
fn links_a_table(rt: HostRuntime) -> Result<(), Fail> {
    let mut memory = empty_map(rt.alloc())?;
    let directory = Frame(1);
    assert!(rt; !has_table(&memory, directory, 256));
    link_table(&mut memory, directory, 256, Frame(2));
    same(&rt, &memory.read_word(0x1400), &0x2007);
    assert!(rt; has_table(&memory, directory, 256));
    Ok(())
}

#[test]
fn maps_a_page(rt: HostRuntime) -> Result<(), Fail> {
    let mut memory = empty_map(rt.alloc())?;
    let directory = Frame(1);
    link_table(&mut memory, directory, 256, Frame(2));
    assert!(rt; has_table(&memory, directory, 256));
    set_entry(&mut memory, directory, PAGE, MAPPED);
    same(&rt, &memory.read_word(0x2000), &0x3a07);
    match entry(&memory, directory, PAGE) {
        Some(PageEntry { frame, write, .. }) => {
            same(&rt, &frame, &Frame(3));
            assert!(rt; write);
        }
        None => assert!(rt; false, "the page is mapped"),
    }
    Ok(())
}

/// A directory maps only this page.
fn check_only_page(rt: &impl Abort, memory: &Memory, directory: Frame, page: Page)
    requires map { IsPageMap memory.now directory }
    requires page { page + 1 < 2 ^ 32 }
{
    assert!(rt; pages(memory, directory) == 1);
    assert!(rt; next_page(memory, directory, Page(0)) == Some(page));
    assert!(rt; next_page(memory, directory, Page(page.0 + 1)).is_none());
}

#[test]
fn clears_a_page(rt: HostRuntime) -> Result<(), Fail> {
    let mut memory = empty_map(rt.alloc())?;
    let directory = Frame(1);
    link_table(&mut memory, directory, 256, Frame(2));
    assert!(rt; has_table(&memory, directory, 256));
    set_entry(&mut memory, directory, PAGE, MAPPED);
    check_only_page(&rt, &memory, directory, PAGE);
    assert!(rt; has_table(&memory, directory, 256));
    assert!(rt; clear_entry(&mut memory, directory, PAGE) == Some(Frame(2)));
    assert!(rt; pages(&memory, directory) == 0);
    Ok(())
}

/// A real page's word and a lazy one's are present, and a word without P isn't.
#[test]
fn counts_the_present_words_of_a_table(rt: HostRuntime) -> Result<(), Fail> {
    let mut memory = Memory::new(rt.alloc(), 16)?;
    same(&rt, &words_present(&memory, Frame(2)), &0);
    memory.write_word(0x2000, 0x3a67);
    memory.write_word(0x2004, 0x3a66);
    memory.write_word(0x2ffc, 0x0605);
    memory.write_word(0x3000, 0x3a67);
    same(&rt, &words_present(&memory, Frame(2)), &2);
    Ok(())
}
