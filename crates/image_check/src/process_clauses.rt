//! What must hold of one process.

ghost use Rattle.std.specs.Prelude.{◌≡◌, ◌+◌, ◌*◌, ◌<◌, ◌≤◌, ◌^◌, ◌==◌, if◌then◌else◌, IfSome, is_some, None, Some};
ghost use Rattle.page_words.specs.Words.{is_present};
ghost use Rattle.page_map.specs.Pages.{counted};
ghost use Rattle.address_space.specs.Image.{is_user_slot, table_at, word_of};
ghost use Rattle.memory_image.specs.Image.{frames, process_at, role_at, memory_of};
ghost use Rattle.memory_image.specs.Sound.{account_at};
ghost use Rattle.process_table.specs.Image.{quota_from};
ghost use Rattle.image_check.specs.Counts.{all_range, tables_by, pages_by, names_by, maps_by};
ghost use Rattle.image_check.specs.Adds.{Adds, HaveRoom};
ghost use Rattle.image_check.specs.Verdict.{is_directory_of, is_table_of, is_page, has_parent, has_directory, links_table, maps_page, table_is_right, quotas_from, keeps_its_quota, live_clause, process_clause};

use crate::clauses::ProcessClause;
use crate::kernel_words::{is_lazy_word, names_page, names_table};
use crate::walking::{Walked, walk};
use alloc_table::Role;
use memory_image::{ImageRef, Process};
use page_map::{FIRST_SLOT, SLOT_END};
use page_words::{DirWord, Frame, Pid, TableWord};

fn is_directory_of(pid: Pid, role: Option<Role>) -> bool
    ensures { result ≡ is_directory_of pid role }
{
    match role {
        Some(role) => role == Role::Directory { pid },
        None => false,
    }
}

fn is_table_of(pid: Pid, slot: u32, role: Option<Role>) -> bool
    ensures { result ≡ is_table_of pid slot role }
{
    match role {
        Some(role) => role == Role::Table { pid, slot },
        None => false,
    }
}

fn is_page(role: Option<Role>) -> bool
    ensures { result ≡ is_page role }
{
    match role {
        Some(Role::Page { .. }) => true,
        Some(Role::Reserved) => false,
        Some(Role::Free) => false,
        Some(Role::Directory { .. }) => false,
        Some(Role::Table { .. }) => false,
        None => false,
    }
}

fn has_parent(image: &ImageRef<'_>, pid: Pid, process: &Process) -> bool
    ensures { result ≡ has_parent image.now pid process.now }
{
    if pid.number() == 0 {
        1 + process.quota as u64 == image.frames() as u64
    } else {
        image.process(process.parent).is_some()
    }
}

fn has_directory(image: &ImageRef<'_>, pid: Pid, process: &Process) -> bool
    ensures { result ≡ has_directory image.now pid process.now }
{
    process.directory.0 != 0 && is_directory_of(pid, image.role(process.directory))
}

pub fn is_user_slot(slot: u32) -> bool
    ensures { result ≡ is_user_slot slot }
{
    (FIRST_SLOT..SLOT_END).contains(&slot)
}

pub fn links_table(image: &ImageRef<'_>, pid: Pid, slot: u32, word: u32) -> bool
    ensures { result ≡ links_table image.now pid slot word }
{
    word == 0
        || (is_user_slot(slot)
            && names_table(word)
            && is_table_of(pid, slot, image.role(DirWord::read(word).frame())))
}

pub fn maps_page(image: &ImageRef<'_>, word: u32) -> bool
    ensures { result ≡ maps_page image.now word }
{
    let version = image.version();
    word == 0
        || (names_page(version, word)
            && (is_lazy_word(version, word) || is_page(image.role(TableWord::read(word).frame()))))
}

/// 1 where a word of a table is present, and else 0.
pub fn word_count(word: u32) -> u32
    ensures count { result ≡ counted (is_present word) }
    ensures bound { result ≤ 1 }
{
    if TableWord::read(word).present() {
        1
    } else {
        0
    }
}

/// The table of a slot of a process's directory.
pub fn table_of(image: &ImageRef<'_>, pid: Pid, slot: u32) -> Option<Frame>
    ensures { result ≡ table_at (memory_of image.now) pid slot }
{
    let process = image.process(pid)?;
    if !is_user_slot(slot) {
        return None;
    }
    let word = DirWord::read(image.word(process.directory, slot));
    if word.present() {
        Some(word.frame())
    } else {
        None
    }
}

/// Whether so many frames are a directory with its tables and pages.
fn uses_its_frames(used: u32, found: &Walked) -> bool
    requires { (found.now.tables ≤ 704) × (found.now.pages ≤ 720896) }
    ensures { result ≡ (used == 1 + found.now.tables + found.now.pages) }
{
    used == 1 + found.tables + found.pages
}

/// What a process has of another's quota: its own where it is a child of that one.
fn quota_from(image: &ImageRef<'_>, pid: Pid, number: u8) -> u32
    requires { number < 64 }
    ensures { result ≡ quota_from pid number (account_at image.now number) }
{
    let Some(member) = Pid::new(number) else {
        return 0;
    };
    match image.process(member) {
        Some(process) => {
            if number != 0 && process.parent.number() == pid.number() {
                process.quota
            } else {
                0
            }
        }
        None => 0,
    }
}

/// What the children of a process have of its quota.
fn quotas_from(image: &ImageRef<'_>, pid: Pid) -> u64
    ensures { result ≡ quotas_from image.now pid }
{
    let mut sum = 0;
    for number in 0..64 {
        sum += quota_from(image, pid, number) as u64;
    }
    sum
}

fn gives_its_children(image: &ImageRef<'_>, pid: Pid, given: u32) -> bool
    ensures { result ≡ (given == quotas_from image.now pid) }
{
    given as u64 == quotas_from(image, pid)
}

fn keeps_its_quota(process: &Process) -> bool
    ensures { result ≡ keeps_its_quota process.now }
{
    process.used as u64 + process.given as u64 <= process.quota as u64
}

/// The first clause that a live process fails, by what was found in its tables; None where its directory
/// does not lead to tables of its own.
#[tactic(auto, unfolding(crate::specs::Verdict::links_tables, crate::specs::Verdict::maps_pages))]
fn live_clause(
    image: &ImageRef<'_>,
    pid: Pid,
    process: &Process,
    found: Option<Walked>,
) -> Option<ProcessClause>
    requires links { is_some found ≡ all_range (λ s. links_table image.now pid s
        (word_of (memory_of image.now) process.now.directory s)) 0 1024 }
    requires right { IfSome found (λ w. w.right ≡ all_range
        (λ s. table_is_right image.now (table_at (memory_of image.now) pid s)) 256 704) }
    requires tables { IfSome found (λ w. w.tables ≡ tables_by image.now pid) }
    requires pages { IfSome found (λ w. w.pages ≡ pages_by image.now pid) }
    requires few { IfSome found (λ w. (w.tables ≤ 704) × (w.pages ≤ 720896)) }
    ensures { result ≡ live_clause image.now pid process.now }
{
    if !has_parent(image, pid, process) {
        return Some(ProcessClause::Parent);
    }
    if !has_directory(image, pid, process) {
        return Some(ProcessClause::Directory);
    }
    let Some(found) = found else {
        return Some(ProcessClause::Tables);
    };
    if !found.right {
        Some(ProcessClause::Pages)
    } else if !uses_its_frames(process.used, &found) {
        Some(ProcessClause::Used)
    } else if !gives_its_children(image, pid, process.given) {
        Some(ProcessClause::Given)
    } else if !keeps_its_quota(process) {
        Some(ProcessClause::Quota)
    } else {
        None
    }
}

/// Checks a live process, and adds what it names and maps.
fn judge_live(
    image: &ImageRef<'_>,
    pid: Pid,
    process: &Process,
    names: &mut [u32],
    maps: &mut [u32],
) -> Option<ProcessClause>
    requires process { process_at image.now pid ≡ Some process.now }
    requires names { HaveRoom names.old 704 }
    requires maps { HaveRoom maps.old 720896 }
    ensures clause { result ≡ live_clause image.now pid process.now }
    ensures names { Adds names.old names.new (λ f. names_by image.now pid f) }
    ensures maps { Adds maps.old maps.new (λ f. maps_by image.now pid f) }
{
    let found = walk(image, pid, process.directory, names, maps);
    live_clause(image, pid, process, found)
}

/// The clause that a process fails that isn't live.
fn dead_clause(pid: Pid) -> Option<ProcessClause>
    ensures { result ≡ (if pid == 0 then Some ProcessClause.Parent else None) }
{
    if pid.number() == 0 {
        Some(ProcessClause::Parent)
    } else {
        None
    }
}

/// The first clause that a process fails; None where it fails none. It adds how often the process's
/// directory names each frame, and how many of its pages are mapped to each, to counts of frames by their
/// number. Each count must have room for as many more.
pub fn judge_process(
    image: &ImageRef<'_>,
    pid: Pid,
    names: &mut [u32],
    maps: &mut [u32],
) -> Option<ProcessClause>
    requires names { HaveRoom names.old 704 }
    requires maps { HaveRoom maps.old 720896 }
    ensures clause { result ≡ process_clause image.now pid }
    ensures names { Adds names.old names.new (λ f. names_by image.now pid f) }
    ensures maps { Adds maps.old maps.new (λ f. maps_by image.now pid f) }
{
    match image.process(pid) {
        Some(process) => judge_live(image, pid, &process, names, maps),
        None => dead_clause(pid),
    }
}
