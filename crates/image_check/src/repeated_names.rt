//! What a directory names whose words may name one frame many times: each table is read once.

ghost use Rattle.std.specs.Prelude.{◌≡◌, ◌+◌, ◌*◌, ◌<◌, ◌≤◌, ◌^◌, Some, length, slice_index};
ghost use Rattle.page_map.specs.Pages.{counted};
ghost use Rattle.address_space.specs.Image.{directory_at};
ghost use Rattle.memory_image.specs.Image.{memory_of};
ghost use Rattle.image_check.specs.Counts.{is_this, names_by, maps_by};
ghost use Rattle.image_check.specs.Adds.{Adds, HaveRoom, MayGrow, maps_first, names_before, times_named, words_naming};

use crate::counting::{count_more, count_one, frame_named};
use crate::frame_clauses::is_this;
use crate::walking::table_at;
use memory_image::ImageRef;
use page_map::{FIRST_SLOT, SLOT_END};
use page_words::{Frame, Pid};

/// How many words of a directory are of the user range.
const USER_SLOTS: u32 = SLOT_END - FIRST_SLOT;

/// Adds how often the words of a directory name each frame.
fn count_slots(image: &ImageRef<'_>, pid: Pid, directory: Frame, names: &mut [u32])
    requires directory { directory_at (memory_of image.now) pid ≡ Some directory }
    requires names { HaveRoom names.old 704 }
    ensures { Adds names.old names.new (λ f. names_by image.now pid f) }
{
    for slot in FIRST_SLOT..SLOT_END {
        count_one(names, table_at(image, pid, directory, slot));
    }
}

/// Adds what the words of a table name, so many times each.
fn count_words(image: &ImageRef<'_>, table: Frame, times: u32, maps: &mut [u32])
    requires { MayGrow maps.old (λ f. times * words_naming image.now table f) }
    ensures { Adds maps.old maps.new (λ f. times * words_naming image.now table f) }
{
    for index in 0..1024 {
        count_more(maps, frame_named(image, image.word(table, index)), times);
    }
}

/// Adds what the words of a frame name, so many times each, and reads none of them for no time.
fn count_frame(image: &ImageRef<'_>, frame: Frame, times: u32, maps: &mut [u32])
    requires { MayGrow maps.old (λ f. times * words_naming image.now frame f) }
    ensures { Adds maps.old maps.new (λ f. times * words_naming image.now frame f) }
{
    if times > 0 {
        count_words(image, frame, times, maps);
    }
}

/// 1 where a slot's table is that frame, and otherwise 0.
fn named(frame: Frame, table: Option<Frame>) -> u32
    ensures count { result ≡ counted (is_this frame table) }
    ensures bound { result ≤ 1 }
{
    if is_this(frame, table) { 1 } else { 0 }
}

/// How many of the first words of a directory's user range name a frame.
fn names_before(image: &ImageRef<'_>, pid: Pid, directory: Frame, count: u32, frame: Frame) -> u32
    requires directory { directory_at (memory_of image.now) pid ≡ Some directory }
    requires count { count ≤ 704 }
    ensures { result ≡ names_before image.now pid count frame }
{
    let mut names = 0;
    for slot in FIRST_SLOT..FIRST_SLOT + count {
        names += named(frame, table_at(image, pid, directory, slot));
    }
    names
}

/// How often a table counts at a slot that names it: at the first word that does, once for each.
fn times_named(image: &ImageRef<'_>, pid: Pid, directory: Frame, count: u32, table: Frame) -> u32
    requires directory { directory_at (memory_of image.now) pid ≡ Some directory }
    requires count { count < 704 }
    ensures { result ≡ times_named image.now pid count table }
{
    if names_before(image, pid, directory, count, table) == 0 {
        names_before(image, pid, directory, USER_SLOTS, table)
    } else {
        0
    }
}

/// Adds what a slot's table names, as often as the table counts there.
#[tactic(auto, using(crate::proofs::NamingLemmas::adds_none_first))]
fn count_table(image: &ImageRef<'_>, pid: Pid, directory: Frame, count: u32, maps: &mut [u32])
    requires directory { directory_at (memory_of image.now) pid ≡ Some directory }
    requires count { count < 704 }
    requires maps { MayGrow maps.old (λ f. maps_first image.now pid count f) }
    ensures { Adds maps.old maps.new (λ f. maps_first image.now pid count f) }
{
    let Some(table) = table_at(image, pid, directory, FIRST_SLOT + count) else {
        return;
    };
    let times = times_named(image, pid, directory, count, table);
    count_frame(image, table, times, maps);
}

/// Adds what the words of each table name, once for each word of the directory that names the table. It reads each
/// table once.
fn count_tables(image: &ImageRef<'_>, pid: Pid, directory: Frame, maps: &mut [u32])
    requires directory { directory_at (memory_of image.now) pid ≡ Some directory }
    requires maps { HaveRoom maps.old 720896 }
    ensures { Adds maps.old maps.new (λ f. maps_by image.now pid f) }
{
    image.within();
    for count in 0..USER_SLOTS {
        count_table(image, pid, directory, count, maps);
    }
}

/// Adds how often a process's directory names each frame, and how many of its pages are mapped to each.
/// It reads each table once, however many words name it.
pub fn count_named(
    image: &ImageRef<'_>,
    pid: Pid,
    directory: Frame,
    names: &mut [u32],
    maps: &mut [u32],
)
    requires directory { directory_at (memory_of image.now) pid ≡ Some directory }
    requires names { HaveRoom names.old 704 }
    requires maps { HaveRoom maps.old 720896 }
    ensures names { Adds names.old names.new (λ f. names_by image.now pid f) }
    ensures maps { Adds maps.old maps.new (λ f. maps_by image.now pid f) }
{
    count_slots(image, pid, directory, names);
    count_tables(image, pid, directory, maps);
}
