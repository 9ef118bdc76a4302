//! What an image shows, and whether two images show the same.

ghost use Rattle.std.specs.Prelude.{◌≡◌, ◌<◌};
ghost use Rattle.std.specs.Option.{option_map};
ghost use Rattle.script_film.specs.Changes.{role_in, word_in, process_in, is_free, same_role, same_record, same_process};

use alloc_table::Role;
use memory_image::{Image, Process};
use page_words::{Frame, Pid};

/// What a frame serves; it is free where there is no image.
pub(crate) fn role_in(image: Option<&Image>, frame: u32) -> Role
    ensures { result ≡ role_in (option_map (λ i. i.now) image.entry) frame }
{
    match image {
        None => Role::Free,
        Some(image) => image.role(Frame(frame)).unwrap_or(Role::Free),
    }
}

fn is_free(role: Role) -> bool
    ensures { result ≡ is_free role }
{
    match role {
        Role::Free => true,
        Role::Reserved => false,
        Role::Directory { .. } => false,
        Role::Table { .. } => false,
        Role::Page { .. } => false,
    }
}

/// A word of a frame; 0 where the frame is free, and where there is no image.
pub(crate) fn word_in(image: Option<&Image>, frame: u32, index: u32) -> u32
    requires { index < 1024 }
    ensures { result ≡ word_in (option_map (λ i. i.now) image.entry) frame index }
{
    let Some(shown) = image else {
        return 0;
    };
    if is_free(role_in(Some(shown), frame)) {
        0
    } else {
        shown.word(Frame(frame), index)
    }
}

/// What a process has, where it is live.
pub(crate) fn process_in(image: Option<&Image>, pid: Pid) -> Option<Process>
    ensures { result ≡ process_in (option_map (λ i. i.now) image.entry) pid }
{
    match image {
        None => None,
        Some(image) => image.process(pid),
    }
}

/// Whether two roles are the same.
pub(crate) fn same_role(a: &Role, b: &Role) -> bool
    ensures { result ≡ same_role a.now b.now }
{
    match (a, b) {
        (Role::Reserved, Role::Reserved) => true,
        (Role::Free, Role::Free) => true,
        (Role::Directory { pid }, Role::Directory { pid: other }) => pid == other,
        (
            Role::Table { pid, slot },
            Role::Table {
                pid: other,
                slot: other_slot,
            },
        ) => pid == other && slot == other_slot,
        (Role::Page { count }, Role::Page { count: other }) => count == other,
        _ => false,
    }
}

/// Whether two records are the same.
fn same_record(r: &Process, t: &Process) -> bool
    ensures { result ≡ same_record r.now t.now }
{
    r.parent == t.parent
        && r.quota == t.quota
        && r.used == t.used
        && r.given == t.given
        && r.directory == t.directory
}

/// Whether two processes have the same, or neither is live.
pub(crate) fn same_process(a: &Option<Process>, b: &Option<Process>) -> bool
    ensures { result ≡ same_process a.now b.now }
{
    match (a, b) {
        (None, None) => true,
        (None, Some(_)) => false,
        (Some(_), None) => false,
        (Some(r), Some(t)) => same_record(r, t),
    }
}
