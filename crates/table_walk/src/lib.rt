//! The walk of a two-level page map, as a processor makes it for a user-mode access, and the flags
//! that the access leaves in the map.
//!
//! The tests of presence and of rights, and the error codes, are modelled on the Intel SDM, volume 3,
//! chapter on paging, 32-bit paging, with 4 KiB pages and no reserved bit. That a directory, a table or
//! a page lies outside memory, which a processor does not test, is this project's own: such a walk
//! ends as `WalkEnd::Outside`.
#![tactic(auto)]

ghost use Rattle.std.specs.Prelude.{◌^◌, ◌≡◌, ℕ, ◌+◌, ◌*◌, ◌%◌, ◌<◌, ◌≤◌, length, IsOk};
ghost use Rattle.std.specs.Result.{ForOk};
ghost use Rattle.phys_memory.specs.Bytes.{word_place};
ghost use Rattle.table_walk.specs.Walk.{WalksFindWhatLeads, page_fault, walk_of};
ghost use Rattle.table_walk.specs.declared.Access.{Access};
ghost use Rattle.table_walk.specs.Marks.{ChangesTwoWords, MarksChangeTwoWords, MarksKeepWalks, StandsApart, marked};

use page_words::{DirWord, Frame, TableWord, Vaddr, index_of, page_of, slot_of};
use phys_memory::{FRAME_BYTES, Memory};

/// What a user-mode access does.
#[derive(Clone, Copy, Debug, PartialEq, Eq)]
pub enum Access {
    /// It loads.
    Read,
    /// It stores.
    Write,
}

/// A page fault.
#[derive(Clone, Copy, Debug, PartialEq, Eq)]
pub struct PageFault {
    /// The linear address of the access, which a processor puts into CR2.
    pub addr: Vaddr,
    /// The error code. Bit 0: 0 where a word is not present, 1 where the words give no right. Bit 1: the
    /// access was a write. Bit 2: it was a user-mode access. So it is 4 to 7.
    pub code: u8,
}

impl PageFault {
    /// The fault of a user-mode access: to a page that is not present, or to one that is present and does
    /// not give the right.
    pub fn new(addr: Vaddr, access: Access, present: bool) -> PageFault
        ensures { result ≡ page_fault addr access present }
    {
        let code = match (access, present) {
            (Access::Read, false) => 4,
            (Access::Read, true) => 5,
            (Access::Write, false) => 6,
            (Access::Write, true) => 7,
        };
        PageFault { addr, code }
    }
}

/// How a walk ends that finds no frame.
#[derive(Clone, Copy, Debug, PartialEq, Eq)]
pub enum WalkEnd {
    /// A word on the way is not present or does not give the right.
    Fault(PageFault),
    /// The directory, or a frame that a word names, is none of the memory's.
    Outside,
}

/// The place of a word in memory, in bytes.
fn place_of(frame: Frame, index: u32) -> usize
    requires frame { frame < 2 ^ 20 }
    requires index { index < 1024 }
    ensures { result ≡ word_place frame index }
{
    frame.0 as usize * FRAME_BYTES + index as usize * 4
}

/// The frame that an address leads to by the map of a directory, for a user-mode access. It ends on any
/// bytes, and for any directory frame; the directory may lie outside memory.
///
/// The rights of a page are those that both words give: U/S for any access, and R/W for a write.
#[tactic(auto, unfolding(crate::specs::Walk::walk_of))]
pub fn walk(
    memory: &Memory,
    directory: Frame,
    address: Vaddr,
    access: Access,
) -> Result<Frame, WalkEnd>
    ensures { result ≡ walk_of memory.now directory address access }
{
    let frames = memory.frames();
    if directory.0 >= frames {
        return Err(WalkEnd::Outside);
    }
    let page = page_of(address);
    let dir_word = DirWord::read(memory.read_word(place_of(directory, slot_of(page))));
    if !dir_word.present() {
        return Err(WalkEnd::Fault(PageFault::new(address, access, false)));
    }
    let table = dir_word.frame();
    if table.0 >= frames {
        return Err(WalkEnd::Outside);
    }
    let table_word = TableWord::read(memory.read_word(place_of(table, index_of(page))));
    if !table_word.present() {
        return Err(WalkEnd::Fault(PageFault::new(address, access, false)));
    }
    if !(dir_word.user() && table_word.user()) {
        return Err(WalkEnd::Fault(PageFault::new(address, access, true)));
    }
    if access == Access::Write && !(dir_word.writable() && table_word.writable()) {
        return Err(WalkEnd::Fault(PageFault::new(address, access, true)));
    }
    let frame = table_word.frame();
    if frame.0 >= frames {
        return Err(WalkEnd::Outside);
    }
    Ok(frame)
}

#[tactic(auto, using(crate::proofs::Leads::walked_directory, crate::proofs::Leads::walked_table), unfolding(crate::specs::Marks::marked))]
fn mark_words(memory: &mut Memory, directory: Frame, address: Vaddr, access: Access)
    requires { IsOk (walk_of memory.old directory address access) }
    ensures words { memory.new ≡ marked memory.old directory address access }
    ensures length { length memory.new ≡ length memory.old }
    ensures size { length memory.old ≤ 2 ^ 32 }
    ensures whole { length memory.old % 4096 ≡ 0 }
    ensures fits { address < 2 ^ 32 }
{
    let frames = memory.frames();
    prove!(directory.0 < frames);
    let page = page_of(address);
    let dir_place = place_of(directory, slot_of(page));
    let mut dir_word = DirWord::read(memory.read_word(dir_place));
    let table = dir_word.frame();
    prove!(table.0 < frames);
    dir_word.set_accessed(true);
    memory.write_word(dir_place, dir_word.word());
    let table_place = place_of(table, index_of(page));
    let mut table_word = TableWord::read(memory.read_word(table_place));
    table_word.set_accessed(true);
    if access == Access::Write {
        table_word.set_dirty(true);
    }
    memory.write_word(table_place, table_word.word());
}

/// Marks an access that completes: sets the accessed flag in both words that lead to the address, and
/// for a write the dirty flag in the table word, as a processor does. It changes nothing else.
///
/// The walk must find a frame, in which neither word lies. The two words may be one.
pub fn mark(memory: &mut Memory, directory: Frame, address: Vaddr, access: Access)
    requires found { IsOk (walk_of memory.old directory address access) }
    requires apart { ForOk (walk_of memory.old directory address access) (StandsApart memory.old directory address) }
    ensures words { memory.new ≡ marked memory.old directory address access }
    ensures length { length memory.new ≡ length memory.old }
    ensures changed { ChangesTwoWords memory.old directory address access memory.new }
    ensures walks { (other at : ℕ) (kind : Access)
        → walk_of memory.new other at kind ≡ walk_of memory.old other at kind }
{
    mark_words(memory, directory, address, access);
}

/// A walk finds a frame exactly where the words lead to it: each frame on the way lies in memory, both
/// words are present and give the right, and the table word names the frame.
pub fn walks_find_what_leads()
    ensures { WalksFindWhatLeads }
{}

/// A mark sets accessed in both words of the way and dirty for a write in the table word, and leaves
/// every other bit of these words, and every other byte, as it was.
pub fn marks_change_two_words()
    ensures { MarksChangeTwoWords }
{}

/// After a mark every walk, of every directory, address and access, ends as it did before.
pub fn marks_keep_walks()
    ensures { MarksKeepWalks }
{}
