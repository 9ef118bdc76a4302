//! The walk and the mark on words in memory.
use crate::comparing::same;
use page_words::{DirWord, Frame, Vaddr};
use phys_memory::Memory;
use std::alloc::Global;
use std::process::Abort;
use table_walk::{Access, PageFault, WalkEnd, mark, walk};

const ADDRESS: Vaddr = Vaddr(0x4000_0000);

type End = Result<Frame, WalkEnd>;

const FOUND: End = Ok(Frame(3));

const OUTSIDE: End = Err(WalkEnd::Outside);

fn fault(code: u8) -> End {
    Err(WalkEnd::Fault(PageFault {
        addr: ADDRESS,
        code,
    }))
}

/// A memory of 16 frames, with a word of the directory in frame 1 and one of the table in frame 2.
fn memory_of(rt: &impl Abort, alloc: Global, dir_word: u32, table_word: u32) -> Memory {
    let mut memory = Memory::new(alloc, 16).ok().expect(rt, "a memory");
    same(rt, &memory.frames(), &16);
    memory.write_word(5120, dir_word);
    memory.write_word(8192, table_word);
    memory
}

/// With these two words a walk for a read ends so, and one for a write so.
fn check<R: AllocGlobal + Abort>(rt: &R, dir_word: u32, table_word: u32, read: End, write: End) {
    let memory = memory_of(rt, rt.alloc(), dir_word, table_word);
    same(
        rt,
        &[Access::Read, Access::Write].map(|access| walk(&memory, Frame(1), ADDRESS, access)),
        &[read, write],
    );
}

#[test]
fn walks_sixteen_frames(rt: HostRuntime) {
    check(&rt, 0x2005, 0x3007, FOUND, fault(7));
    check(&rt, 0x2003, 0x3007, fault(5), fault(7));
    check(&rt, 0x2005, 0x0000, fault(4), fault(6));
    check(&rt, 0x00ff_f007, 0x3007, OUTSIDE, OUTSIDE);
    check(&rt, 0x2007, 0x3005, FOUND, fault(7));
    check(&rt, 0x2007, 0x3007, FOUND, FOUND);
}

/// Marks an access whose walk finds a frame that is none of the tables.
fn mark_one(rt: &impl Abort, memory: &mut Memory, access: Access) {
    same(rt, &memory.frames(), &16);
    let table = DirWord::read(memory.read_word(5120)).frame();
    let end = walk(memory, Frame(1), ADDRESS, access);
    assert!(rt; matches!(end, Ok(frame) if frame != Frame(1) && frame != table));
    mark(memory, Frame(1), ADDRESS, access);
}

/// What both words are behind an access.
fn marked<R: AllocGlobal + Abort>(rt: &R, access: Access) -> [u32; 2] {
    let mut memory = memory_of(rt, rt.alloc(), 0x2007, 0x3207);
    mark_one(rt, &mut memory, access);
    same(rt, &memory.frames(), &16);
    [memory.read_word(5120), memory.read_word(8192)]
}

#[test]
fn marks_accesses(rt: HostRuntime) {
    same(&rt, &marked(&rt, Access::Read), &[0x2027, 0x3227]);
    same(&rt, &marked(&rt, Access::Write), &[0x2027, 0x3267]);
}
