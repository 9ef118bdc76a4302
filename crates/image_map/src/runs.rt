//! The pages of a table in runs: pages in a row that have one word.

ghost use Rattle.std.specs.Prelude.{◌≡◌, ◌+◌, ◌<◌, ◌≤◌, ◌∷◌, ◌++◌, Some, List, length};
ghost use Rattle.arrayvec.specs.ArrayVec.{array_vec_len};
ghost use Rattle.address_space.specs.Image.{directory_at, table_at, named_by};
ghost use Rattle.memory_image.specs.Image.{memory_of};
ghost use Rattle.image_check.specs.Verdict.{is_table_of};
ghost use Rattle.image_map.specs.Runs.{page_of, pages_of, goes_on, runs_from, runs_of, runs_in, own_table, runs_at};

use alloc_table::Role;
use arrayvec::ArrayVec;
use image_check::ImageRef;
use page_words::{DirWord, Frame, Page, Pid, TableWord};

/// How many words a table has.
const WORDS: usize = 1024;

/// Pages in a row that have one word.
#[derive(Clone, Copy, Debug, PartialEq, Eq)]
pub struct Run {
    /// The first page.
    pub first: Page,
    /// The last page.
    pub last: Page,
    /// The word of each page in its table.
    pub word: u32,
}

impl Default for Run {
    fn default() -> Run {
        Run {
            first: Page(0),
            last: Page(0),
            word: 0,
        }
    }
}

/// The runs of a table.
pub(crate) type Runs = ArrayVec<Run, WORDS>;

/// Puts the page of a word behind others, where the word is present.
fn push_page(pages: &mut Runs, page: u32, word: u32)
    requires { array_vec_len pages.old < 1024 }
    ensures items { pages.new.items ≡ pages.old.items ++ page_of page word }
    ensures len { array_vec_len pages.new ≤ array_vec_len pages.old + 1 }
{
    if TableWord::read(word).present() {
        pages.push(Run {
            first: Page(page),
            last: Page(page),
            word,
        });
    }
}

/// The pages of a table, which is that of a slot, each as a run by itself.
fn pages_of(image: &ImageRef<'_>, slot: u32, table: Frame) -> Runs
    requires { slot < 1024 }
    ensures { result.items ≡ pages_of image.now slot table }
{
    let mut pages = ArrayVec::new();
    for index in 0..1024 {
        push_page(&mut pages, 1024 * slot + index, image.word(table, index));
    }
    pages
}

/// Returns whether a run continues in the next one.
fn goes_on(run: &Run, next: &Run) -> bool
    ensures { result ≡ goes_on run.now next.now }
{
    u64::from(run.last.0) + 1 == u64::from(next.first.0) && run.word == next.word
}

/// Joins the next run to the current one, or closes that and opens the next; the run that is current then.
fn take_next(closed: &mut Runs, current: Run, next: &Run) -> Run
    requires { array_vec_len closed.old < 1024 }
    ensures runs { (rest : List Run) → closed.new.items ++ runs_from result rest
        ≡ closed.old.items ++ runs_from current (next.now ∷ rest) }
    ensures len { array_vec_len closed.new ≤ array_vec_len closed.old + 1 }
{
    if goes_on(&current, next) {
        return Run {
            last: next.last,
            ..current
        };
    }
    closed.push(current);
    *next
}

/// Joins runs that continue one another.
fn runs_of(pages: &[Run]) -> Runs
    requires { length pages.now ≤ 1024 }
    ensures { result.items ≡ runs_of pages.now }
{
    let mut runs = ArrayVec::new();
    let Some(first) = pages.first() else {
        return runs;
    };
    let mut current = *first;
    for place in 1..pages.len() {
        current = take_next(&mut runs, current, &pages[place]);
    }
    runs.push(current);
    runs
}

/// The frame that a word of a directory names, where it is present.
fn named_by(slot: u32, word: u32) -> Option<Frame>
    requires { (256 ≤ slot) × (slot < 960) }
    ensures { result ≡ named_by slot word }
{
    let word = DirWord::read(word);
    if word.present() {
        Some(word.frame())
    } else {
        None
    }
}

fn is_table_of(pid: Pid, slot: u32, role: Option<Role>) -> bool
    ensures { result ≡ is_table_of pid slot role }
{
    match role {
        Some(role) => role == Role::Table { pid, slot },
        None => false,
    }
}

/// The table of a slot of a process's directory, where the directory names one that has this role.
fn own_table(image: &ImageRef<'_>, pid: Pid, directory: Frame, slot: u32) -> Option<Frame>
    requires directory { directory_at (memory_of image.now) pid ≡ Some directory }
    requires slot { (256 ≤ slot) × (slot < 960) }
    ensures { result ≡ own_table image.now pid slot }
{
    let table = named_by(slot, image.word(directory, slot))?;
    if is_table_of(pid, slot, image.role(table)) {
        Some(table)
    } else {
        None
    }
}

/// The runs of the table of a slot of a process's directory. Each frame has one role, so that it is read
/// for one slot at most.
pub(crate) fn runs_at(image: &ImageRef<'_>, pid: Pid, directory: Frame, slot: u32) -> Runs
    requires directory { directory_at (memory_of image.now) pid ≡ Some directory }
    requires slot { (256 ≤ slot) × (slot < 960) }
    ensures { result.items ≡ runs_at image.now pid slot }
{
    match own_table(image, pid, directory, slot) {
        Some(table) => runs_of(pages_of(image, slot, table).as_slice()),
        None => ArrayVec::new(),
    }
}
