//! What a processor does to a directory word by itself. Its accesses are definitions (specs/ByWalk.antt, specs/Kept.antt).

ghost use Rattle.std.specs.Prelude.{Some, is_some, length, true, ℕ, ◌*◌, ◌+◌, ◌≡◌, ◌≤◌};
ghost use Rattle.address_space.specs.Below.{IsUserPage};
ghost use Rattle.address_space.specs.Words.{FramesStay, directory_of, image_of, none_goes, walked_word, with_walked};

use crate::{Spaces, home};
use page_map::place_of;
use page_words::{DirWord, Frame, Page, Pid, slot_of};
use phys_memory::Memory;

impl Spaces {
    /// Sets or clears accessed in the directory word that leads to a page, if the word is present. No space shows it.
    pub fn set_walked(&mut self, pid: Pid, page: Page, walked: bool)
        requires live { is_some (directory_of self.old.directories pid) ≡ true }
        requires user { IsUserPage page }
        ensures spaces { self.new.spaces ≡ self.old.spaces }
        ensures stay { FramesStay none_goes (image_of self.old) (image_of self.new) }
        ensures directories { self.new.directories ≡ self.old.directories }
        ensures roles { self.new.roles ≡ self.old.roles }
        ensures bytes { (directory : ℕ) → directory_of self.old.directories pid ≡ Some directory
            → self.new.bytes ≡ with_walked self.old.bytes directory page walked }
    {
        let directory = home(&self.directories, pid);
        set_word_walked(&mut self.memory, directory, page, walked);
    }
}

/// A directory word with accessed set or cleared, where it is present.
fn walked_word(word: u32, walked: bool) -> u32
    ensures { result ≡ walked_word walked word }
{
    let mut changed = DirWord::read(word);
    if !changed.present() {
        return word;
    }
    changed.set_accessed(walked);
    changed.word()
}

/// Sets or clears accessed in the directory word that leads to a page, if that word is present.
pub fn set_word_walked(memory: &mut Memory, directory: Frame, page: Page, walked: bool)
    requires inside { 4096 * directory + 4096 ≤ length memory.old }
    requires user { IsUserPage page }
    ensures bytes { memory.new ≡ with_walked memory.old directory page walked }
    ensures length { length memory.new ≡ length memory.old }
{
    let frames = memory.frames();
    prove!(directory.0 < frames);
    let place = place_of(directory, slot_of(page) * 4);
    let word = memory.read_word(place);
    memory.write_word(place, walked_word(word, walked));
}
