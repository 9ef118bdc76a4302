//! Page words, field by field.
use crate::comparing::same;
use page_words::{DirWord, Frame, TableWord};

/// The fields of a table word: present, writable, the user's, `may`, accessed, dirty, and the frame.
fn fields(word: u32) -> [u32; 7] {
    let read = TableWord::read(word);
    [
        read.present() as u32,
        read.writable() as u32,
        read.user() as u32,
        read.may() as u32,
        read.accessed() as u32,
        read.dirty() as u32,
        read.frame().0,
    ]
}

#[test]
fn reads_the_examples(rt: HostRuntime) {
    same(
        &rt,
        &[0x3207, 0x3227, 0x3267, 0x3005].map(fields),
        &[
            [1, 1, 1, 1, 0, 0, 3],
            [1, 1, 1, 1, 1, 0, 3],
            [1, 1, 1, 1, 1, 1, 3],
            [1, 0, 1, 0, 0, 0, 3],
        ],
    );
}

/// The word of a lazy page that may be written to, and which the process has loaded from.
fn lazy_word() -> u32 {
    let mut word = TableWord::read(0);
    word.set_present(true);
    word.set_user(true);
    word.set_may(true);
    word.set_granted(true);
    word.set_lazy(true);
    word.set_accessed(true);
    word.word()
}

/// The word of a directory for the table in frame 2.
fn link_word() -> u32 {
    let mut word = DirWord::read(0);
    word.set_present(true);
    word.set_writable(true);
    word.set_user(true);
    word.set_frame(Frame(2));
    word.word()
}

#[test]
fn sets_each_field(rt: HostRuntime) {
    let mut stored = TableWord::read(0x3a27);
    stored.set_dirty(true);
    same(
        &rt,
        &[lazy_word(), link_word(), stored.word()],
        &[0xe25, 0x2007, 0x3a67],
    );
}
