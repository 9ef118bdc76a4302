//! Which words a kernel writes, in an image of each version.

ghost use Rattle.std.specs.Prelude.{◌≡◌, ◌<◌, List};
ghost use Rattle.page_words.specs.Words.{flag};
ghost use Rattle.address_space.specs.ImageWords.{is_lazy_word, own_frame};
ghost use Rattle.image_check.specs.WordTests.{names_table, names_page, names_real_page, names_any_page, is_lazy_or_real, are_clear};

use page_words::{DirWord, Frame, TableWord};

fn bit(word: u32, place: u32) -> bool
    requires { place < 32 }
    ensures { result ≡ flag word place }
{
    (word >> place) & 1 == 1
}

fn is_bare_link(word: u32) -> bool
    ensures { result ≡ are_clear word (List.◌∷◌ 3
        (List.◌∷◌ 4 (List.◌∷◌ 6 (List.◌∷◌ 7 (List.◌∷◌ 8 (List.◌∷◌ 9 (List.◌∷◌ 10 (List.◌∷◌ 11 List.[])))))))) }
{
    !bit(word, 3)
        && !bit(word, 4)
        && !bit(word, 6)
        && !bit(word, 7)
        && !bit(word, 8)
        && !bit(word, 9)
        && !bit(word, 10)
        && !bit(word, 11)
}

fn is_bare_entry(word: u32) -> bool
    ensures { result ≡ are_clear word (List.◌∷◌ 3 (List.◌∷◌ 4 (List.◌∷◌ 7 (List.◌∷◌ 8 List.[])))) }
{
    !bit(word, 3) && !bit(word, 4) && !bit(word, 7) && !bit(word, 8)
}

fn is_bare_real_entry(word: u32) -> bool
    ensures { result ≡ are_clear word (List.◌∷◌ 3
        (List.◌∷◌ 4 (List.◌∷◌ 7 (List.◌∷◌ 8 (List.◌∷◌ 10 (List.◌∷◌ 11 List.[])))))) }
{
    !bit(word, 3)
        && !bit(word, 4)
        && !bit(word, 7)
        && !bit(word, 8)
        && !bit(word, 10)
        && !bit(word, 11)
}

/// Whether it is the word of a table, as a kernel writes it.
pub(crate) fn names_table(word: u32) -> bool
    ensures { result ≡ names_table word }
{
    let link = DirWord::read(word);
    link.frame().0 >= 1 && link.present() && link.writable() && link.user() && is_bare_link(word)
}

/// Whether it is the word of a page, as a kernel of version 1 writes it.
fn names_real_page(word: u32) -> bool
    ensures { result ≡ names_real_page word }
{
    let entry = TableWord::read(word);
    entry.frame().0 >= 1
        && entry.present()
        && entry.user()
        && is_bare_real_entry(word)
        && (!entry.writable() || entry.may())
        && (!entry.dirty() || entry.accessed())
}

/// Whether it names frame 0 and is clean, where it is lazy, and else another frame.
fn is_lazy_or_real(word: u32) -> bool
    ensures { result ≡ is_lazy_or_real word }
{
    let entry = TableWord::read(word);
    if entry.lazy() {
        entry.frame().0 == 0 && !entry.dirty()
    } else {
        entry.frame().0 >= 1
    }
}

/// Whether it is the word of a page, lazy or not, as a kernel of version 2 writes it.
fn names_any_page(word: u32) -> bool
    ensures { result ≡ names_any_page word }
{
    let entry = TableWord::read(word);
    is_lazy_or_real(word)
        && entry.present()
        && entry.user()
        && is_bare_entry(word)
        && entry.writable() == (entry.granted() && !entry.lazy())
        && (!entry.granted() || entry.may())
        && (!entry.dirty() || entry.accessed())
}

/// Whether it is the word of a page, as a kernel of this version writes it.
pub(crate) fn names_page(version: u32, word: u32) -> bool
    ensures { result ≡ names_page version word }
{
    if version == 2 {
        names_any_page(word)
    } else {
        names_real_page(word)
    }
}

/// Whether the word's page is lazy: in version 1 none is.
pub(crate) fn is_lazy_word(version: u32, word: u32) -> bool
    ensures { result ≡ is_lazy_word version word }
{
    version == 2 && TableWord::read(word).lazy()
}

/// The frame of its own that the word of a page names.
pub(crate) fn own_frame(version: u32, word: u32) -> Option<Frame>
    ensures { result ≡ own_frame version word }
{
    if is_lazy_word(version, word) {
        None
    } else {
        Some(TableWord::read(word).frame())
    }
}
