//! What the word of a page says, in an image of each version.

ghost use Rattle.std.specs.Prelude.{◌≡◌};
ghost use Rattle.address_space.specs.ImageWords.{is_lazy_word, lets_write};

use page_words::TableWord;

/// Whether the word's page is lazy: in version 1 none is.
pub(crate) fn is_lazy_word(version: u32, word: u32) -> bool
    ensures { result ≡ is_lazy_word version word }
{
    version == 2 && TableWord::read(word).lazy()
}

/// Whether the process may write to the word's page now: version 1 has no bit of its own for it.
pub(crate) fn lets_write(version: u32, word: u32) -> bool
    ensures { result ≡ lets_write version word }
{
    let word = TableWord::read(word);
    if version == 2 {
        word.granted()
    } else {
        word.writable()
    }
}
