//! The directory of a process and its tables: the clauses of their words, and what they name.

ghost use Rattle.std.specs.Prelude.{◌≡◌, ◌+◌, ◌*◌, ◌<◌, ◌≤◌, ◌^◌, ◌&&◌, IfSome, nat_le, is_some, Some};
ghost use Rattle.page_map.specs.Pages.{counted, count_range};
ghost use Rattle.address_space.specs.Image.{directory_at, named_by, table_at, word_of, page_word};
ghost use Rattle.address_space.specs.Spaces.{at_page};
ghost use Rattle.memory_image.specs.Image.{memory_of};
ghost use Rattle.image_check.specs.Counts.{all_range, is_this, frame_of, names_by, maps_by, tables_by, pages_by, words_in};
ghost use Rattle.image_check.specs.Adds.{Adds, HaveRoom, words_naming};
ghost use Rattle.image_check.specs.Verdict.{links_table, maps_page, table_is_right};

use crate::counting::{count_one, frame_named};
use crate::process_clauses::{is_user_slot, links_table, maps_page, word_count};
use crate::repeated_names::count_named;
use memory_image::ImageRef;
use page_map::{FIRST_SLOT, SLOT_END};
use page_words::{DirWord, Frame, Pid};

/// What one pass over a table finds.
#[derive(Clone, Copy)]
struct TableFound {
    /// Whether its words are 0, or those of pages.
    right: bool,
    /// How many of its words are present.
    words: u32,
}

/// What one pass over words of a directory and their tables finds.
#[derive(Clone, Copy)]
pub struct Walked {
    /// Whether the tables hold the words of pages, and each has one.
    pub right: bool,
    /// How many tables the words name.
    pub tables: u32,
    /// How many words of the tables are present.
    pub pages: u32,
}

/// Checks each word of a table, and adds what the words name. It reads each once.
fn walk_table(image: &ImageRef<'_>, table: Frame, maps: &mut [u32]) -> TableFound
    requires { HaveRoom maps.old 1024 }
    ensures right { result.right ≡ all_range (λ i. maps_page image.now (word_of (memory_of image.now) table i)) 0 1024 }
    ensures words { result.words ≡ words_in image.now table }
    ensures bound { result.words ≤ 1024 }
    ensures maps { Adds maps.old maps.new (λ f. words_naming image.now table f) }
{
    let mut right = true;
    let mut words = 0;
    for index in 0..1024 {
        let word = image.word(table, index);
        right &= maps_page(image, word);
        words += word_count(word);
        count_one(maps, frame_named(image, word));
    }
    TableFound { right, words }
}

/// Whether the table that was walked has a present word, and all its words are right.
fn is_right(found: &TableFound) -> bool
    ensures { result ≡ (nat_le 1 found.now.words && found.now.right) }
{
    found.words >= 1 && found.right
}

/// Checks the table of a slot, if it has one, and adds what its pages are mapped to.
fn walk_pages(
    image: &ImageRef<'_>,
    pid: Pid,
    slot: u32,
    table: Option<Frame>,
    maps: &mut [u32],
) -> TableFound
    requires slot { slot < 1024 }
    requires table { table ≡ table_at (memory_of image.now) pid slot }
    requires room { HaveRoom maps.old 1024 }
    ensures right { result.right ≡ table_is_right image.now table }
    ensures words { result.words ≡ count_range (λ page. is_some (page_word (memory_of image.now) (at_page pid page)))
        (1024 * slot) 1024 }
    ensures bound { result.words ≤ 1024 }
    ensures maps { Adds maps.old maps.new (λ f. count_range (λ page. is_this f (frame_of image.now pid page))
        (1024 * slot) 1024) }
{
    image.within();
    match table {
        Some(table) => {
            let found = walk_table(image, table, maps);
            TableFound {
                right: is_right(&found),
                words: found.words,
            }
        }
        None => TableFound {
            right: true,
            words: 0,
        },
    }
}

/// The frame that a word of a directory names, where it is present and of the user range.
fn named_by(slot: u32, word: u32) -> Option<Frame>
    ensures { result ≡ named_by slot word }
{
    let word = DirWord::read(word);
    if is_user_slot(slot) && word.present() {
        Some(word.frame())
    } else {
        None
    }
}

/// The frame that a slot of a process's directory names as a table.
pub fn table_at(image: &ImageRef<'_>, pid: Pid, directory: Frame, slot: u32) -> Option<Frame>
    requires slot { slot < 1024 }
    requires directory { directory_at (memory_of image.now) pid ≡ Some directory }
    ensures { result ≡ table_at (memory_of image.now) pid slot }
{
    named_by(slot, image.word(directory, slot))
}

/// 1 where there is a table, and else 0.
fn table_count(table: Option<Frame>) -> u32
    ensures count { result ≡ counted (is_some table) }
    ensures bound { result ≤ 1 }
{
    if table.is_some() { 1 } else { 0 }
}

/// Checks the table that a slot of a directory names, and adds what the slot and the table name.
fn walk_slot(
    image: &ImageRef<'_>,
    pid: Pid,
    directory: Frame,
    slot: u32,
    names: &mut [u32],
    maps: &mut [u32],
) -> Walked
    requires slot { slot < 1024 }
    requires directory { directory_at (memory_of image.now) pid ≡ Some directory }
    requires names { HaveRoom names.old 1 }
    requires maps { HaveRoom maps.old 1024 }
    ensures right { result.right ≡ table_is_right image.now (table_at (memory_of image.now) pid slot) }
    ensures tables { result.tables ≡ counted (is_some (table_at (memory_of image.now) pid slot)) }
    ensures pages { result.pages ≡ count_range (λ page. is_some (page_word (memory_of image.now) (at_page pid page)))
        (1024 * slot) 1024 }
    ensures few { (result.tables ≤ 1) × (result.pages ≤ 1024) }
    ensures names { Adds names.old names.new (λ f. counted (is_this f (table_at (memory_of image.now) pid slot))) }
    ensures maps { Adds maps.old maps.new (λ f. count_range (λ page. is_this f (frame_of image.now pid page))
        (1024 * slot) 1024) }
{
    let word = image.word(directory, slot);
    count_one(names, named_by(slot, word));
    let found = walk_pages(image, pid, slot, named_by(slot, word), maps);
    Walked {
        right: found.right,
        tables: table_count(named_by(slot, word)),
        pages: found.words,
    }
}

/// Checks the tables that a directory names, and adds what its words and the tables name.
fn walk_tables(
    image: &ImageRef<'_>,
    pid: Pid,
    directory: Frame,
    names: &mut [u32],
    maps: &mut [u32],
) -> Walked
    requires directory { directory_at (memory_of image.now) pid ≡ Some directory }
    requires names { HaveRoom names.old 704 }
    requires maps { HaveRoom maps.old 720896 }
    ensures right { result.right ≡ all_range (λ s. table_is_right image.now (table_at (memory_of image.now) pid s)) 256
        704 }
    ensures tables { result.tables ≡ tables_by image.now pid }
    ensures pages { result.pages ≡ pages_by image.now pid }
    ensures few { (result.tables ≤ 704) × (result.pages ≤ 720896) }
    ensures names { Adds names.old names.new (λ f. names_by image.now pid f) }
    ensures maps { Adds maps.old maps.new (λ f. maps_by image.now pid f) }
{
    let mut right = true;
    let mut tables = 0;
    let mut pages = 0;
    for slot in FIRST_SLOT..SLOT_END {
        let found = walk_slot(image, pid, directory, slot, names, maps);
        right &= found.right;
        tables += found.tables;
        pages += found.pages;
    }
    Walked {
        right,
        tables,
        pages,
    }
}

fn links_at(image: &ImageRef<'_>, pid: Pid, directory: Frame, slot: u32) -> bool
    requires { slot < 1024 }
    ensures { result ≡ links_table image.now pid slot (word_of (memory_of image.now) directory slot) }
{
    links_table(image, pid, slot, image.word(directory, slot))
}

/// Whether the words of a directory are 0, or lead to tables of its own.
fn links_all(image: &ImageRef<'_>, pid: Pid, directory: Frame) -> bool
    ensures { result ≡ all_range (λ s. links_table image.now pid s (word_of (memory_of image.now) directory s)) 0 1024 }
{
    let mut links = true;
    for slot in 0..1024 {
        links &= links_at(image, pid, directory, slot);
    }
    links
}

/// Checks the words of a process's directory and of its tables, and adds what they name. None if a word of the
/// directory isn't 0 and leads to no table of its own.
///
/// Tables of its own are apart from each other and from those of other processes, so each is read once. Otherwise many
/// words may name a frame, and `count_named` reads it once for all of them.
pub fn walk(
    image: &ImageRef<'_>,
    pid: Pid,
    directory: Frame,
    names: &mut [u32],
    maps: &mut [u32],
) -> Option<Walked>
    requires directory { directory_at (memory_of image.now) pid ≡ Some directory }
    requires names { HaveRoom names.old 704 }
    requires maps { HaveRoom maps.old 720896 }
    ensures links { is_some result ≡ all_range (λ s. links_table image.now pid s
        (word_of (memory_of image.now) directory s)) 0 1024 }
    ensures right { IfSome result (λ w. w.right ≡ all_range
        (λ s. table_is_right image.now (table_at (memory_of image.now) pid s)) 256 704) }
    ensures tables { IfSome result (λ w. w.tables ≡ tables_by image.now pid) }
    ensures pages { IfSome result (λ w. w.pages ≡ pages_by image.now pid) }
    ensures few { IfSome result (λ w. (w.tables ≤ 704) × (w.pages ≤ 720896)) }
    ensures names { Adds names.old names.new (λ f. names_by image.now pid f) }
    ensures maps { Adds maps.old maps.new (λ f. maps_by image.now pid f) }
{
    if links_all(image, pid, directory) {
        Some(walk_tables(image, pid, directory, names, maps))
    } else {
        count_named(image, pid, directory, names, maps);
        None
    }
}
