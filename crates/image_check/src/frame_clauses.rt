//! What must hold of one frame.

ghost use Rattle.std.specs.Prelude.{◌≡◌, ◌<◌};
ghost use Rattle.address_space.specs.Image.{directory_at, table_at};
ghost use Rattle.memory_image.specs.Image.{frames, role_at, memory_of};
ghost use Rattle.image_check.specs.Counts as counts;
ghost use Rattle.image_check.specs.Counts.{is_this};
ghost use Rattle.image_check.specs.Verdict.{serves, is_reserved, is_blank_and_reserved, clause_by_role, frame_clause};

use crate::clauses::FrameClause;
use crate::process_clauses::table_of;
use alloc_table::Role;
use memory_image::ImageRef;
use page_words::{Frame, Pid};

pub(crate) fn is_this(frame: Frame, other: Option<Frame>) -> bool
    ensures { result ≡ is_this frame other }
{
    match other {
        Some(other) => other.0 == frame.0,
        None => false,
    }
}

/// The directory of a process, where it is live.
#[tactic(auto, using(memory_image::proofs::References::directory_read))]
fn directory_of(image: &ImageRef<'_>, pid: Pid) -> Option<Frame>
    ensures { result ≡ directory_at (memory_of image.now) pid }
{
    match image.process(pid) {
        Some(process) => Some(process.directory),
        None => None,
    }
}

/// Whether a frame serves as its role says, and the clause that asks it.
fn serves(
    image: &ImageRef<'_>,
    frame: Frame,
    role: Role,
    names: u32,
    maps: u32,
) -> (bool, FrameClause)
    requires named { names ≡ counts.names image.now frame }
    requires mapped { maps ≡ counts.maps image.now frame }
    ensures { result ≡ serves image.now frame role }
{
    match role {
        Role::Reserved => (false, FrameClause::Reserved),
        Role::Free => (names == 0 && maps == 0, FrameClause::Free),
        Role::Directory { pid } => (
            is_this(frame, directory_of(image, pid)) && names == 0 && maps == 0,
            FrameClause::Directory,
        ),
        Role::Table { pid, slot } => (
            is_this(frame, table_of(image, pid, slot)) && names == 1 && maps == 0,
            FrameClause::Table,
        ),
        Role::Page { count } => (count >= 1 && count == maps && names == 0, FrameClause::Page),
    }
}

fn is_blank_and_reserved(image: &ImageRef<'_>) -> bool
    ensures { result ≡ is_blank_and_reserved image.now }
{
    is_reserved(image.role(Frame(0))) && image.is_blank()
}

fn is_reserved(role: Option<Role>) -> bool
    ensures { result ≡ is_reserved role }
{
    match role {
        Some(role) => role == Role::Reserved,
        None => false,
    }
}

fn clause_by_role(image: &ImageRef<'_>, frame: Frame, names: u32, maps: u32) -> Option<FrameClause>
    requires named { names ≡ counts.names image.now frame }
    requires mapped { maps ≡ counts.maps image.now frame }
    ensures { result ≡ clause_by_role image.now frame (role_at image.now frame) }
{
    match image.role(frame) {
        Some(role) => {
            let (holds, clause) = serves(image, frame, role, names, maps);
            if holds { None } else { Some(clause) }
        }
        None => None,
    }
}

/// The first clause that a frame fails, by how often it is named and mapped.
pub fn frame_clause(
    image: &ImageRef<'_>,
    frame: Frame,
    names: u32,
    maps: u32,
) -> Option<FrameClause>
    requires named { names ≡ counts.names image.now frame }
    requires mapped { maps ≡ counts.maps image.now frame }
    ensures { result ≡ frame_clause image.now frame }
{
    if frame.0 == 0 {
        if is_blank_and_reserved(image) {
            None
        } else {
            Some(FrameClause::Reserved)
        }
    } else {
        clause_by_role(image, frame, names, maps)
    }
}
