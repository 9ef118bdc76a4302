//! The squares of a picture, one for each frame: what is drawn of it, and where.

ghost use Rattle.std.specs.Prelude.{◌≡◌, ◌≤◌};
ghost use Rattle.memory_image.specs.Image.{role_at};
ghost use Rattle.image_check.specs.Told.{frame_told};

use crate::frames::letter;
use crate::owners::{Mapped, Owners};
use alloc_table::Role;
use image_check::{FrameClause, ImageRef, Verdict};
use page_words::{Frame, Pid};
use std::io::Write;
use std::{fmt, io};

/// What is drawn of a frame.
#[derive(Clone, Copy)]
pub(crate) struct Square {
    pub frame: Frame,
    pub role: Option<Role>,
    /// Who maps it.
    pub owners: Owners,
    /// The clause that it fails.
    pub failing: Option<FrameClause>,
}

/// What is drawn of a frame: its role, and the clause that the check names.
pub(crate) fn square_of(
    image: &ImageRef<'_>,
    verdict: &Verdict,
    mapped: &Mapped,
    frame: Frame,
) -> Square
    ensures frame { result.frame ≡ frame }
    ensures role { result.role ≡ role_at image.now frame }
    ensures failing { result.failing ≡ frame_told verdict.now frame }
{
    Square {
        frame,
        role: image.role(frame),
        owners: mapped.owners(frame),
        failing: verdict.frame(frame),
    }
}

/// How many hues there are; process numbers that are apart by so many have the same.
const HUES: usize = 5;

/// A teal, an ochre, a violet, a lime and a pink, which people can distinguish who don't see red or green.
const DARK: [&str; HUES] = ["#214141", "#524118", "#5a297a", "#526a10", "#7a5a7a"];

const MIDDLE: [&str; HUES] = ["#448888", "#aa8833", "#bb55ff", "#aadd22", "#ffbbff"];

const LIGHT: [&str; HUES] = ["#b0cdcd", "#dbcda9", "#e2b8ff", "#dbf1a2", "#ffe2ff"];

/// The colour of a process in one shade.
fn color(shade: &[&'static str; HUES], pid: Pid) -> &'static str {
    shade[pid.number() as usize % HUES]
}

/// The shade of used quota, and of tables.
pub(crate) fn middle(pid: Pid) -> &'static str {
    color(&MIDDLE, pid)
}

/// The shade of given quota, and of pages.
pub(crate) fn light(pid: Pid) -> &'static str {
    color(&LIGHT, pid)
}

/// Returns how many ticks distinguish a process from those of its hue: one for each five numbers below its own.
pub(crate) fn ticks(pid: Pid) -> u32
    ensures { result ≤ 12 }
{
    u32::from(pid.number()) / 5
}

impl Square {
    /// The process whose hue and ticks it has, and of a page that two map the first of them.
    pub(crate) fn process(&self) -> Option<Pid> {
        match self.role {
            Some(Role::Directory { pid }) => Some(pid),
            Some(Role::Table { pid, .. }) => Some(pid),
            Some(Role::Page { .. }) => self.owners.first(),
            Some(Role::Reserved) => None,
            Some(Role::Free) => None,
            None => None,
        }
    }

    /// The second process that maps it, where it is a page that two map.
    pub(crate) fn second(&self) -> Option<Pid> {
        match self.role {
            Some(Role::Page { .. }) => self.owners.second(),
            _ => None,
        }
    }

    /// The colour of its ground: black for the reserved frame, white for a free one, and else the hue of its
    /// process, dark for a directory, middle for a table, light for a page.
    pub(crate) fn ground(&self) -> &'static str {
        match self.role {
            Some(Role::Directory { pid }) => color(&DARK, pid),
            Some(Role::Table { pid, .. }) => color(&MIDDLE, pid),
            Some(Role::Page { .. }) => match self.owners.first() {
                Some(pid) => light(pid),
                None => "#ffffff",
            },
            Some(Role::Reserved) => "#222222",
            Some(Role::Free) => "#ffffff",
            None => "#ffffff",
        }
    }

    /// The colour of its letter, on its ground.
    pub(crate) fn ink(&self) -> &'static str {
        match self.role {
            Some(Role::Directory { .. }) => "#ffffff",
            Some(Role::Reserved) => "#ffffff",
            Some(Role::Table { .. }) => "#000000",
            Some(Role::Page { .. }) => "#000000",
            Some(Role::Free) => "#888888",
            None => "#888888",
        }
    }
}

/// Writes the text of a page's square: the number of its holders, or its process if one slot holds it. If more
/// processes map it than its role counts, the text names these; if none does, it is a dash.
fn write_page<W: fmt::Write>(f: &mut fmt::Formatter<W>, count: u32, owners: Owners) -> fmt::Result {
    match owners {
        Owners::Nobody => write!(f, "P-"),
        Owners::One(pid) if count <= 1 => write!(f, "P{}", pid.number()),
        Owners::Two(first, second) if count <= 1 => {
            write!(f, "P{}+{}", first.number(), second.number())
        }
        Owners::More(first, second) if count <= 2 => {
            write!(f, "P{}+{}+", first.number(), second.number())
        }
        _ => write!(f, "S{count}"),
    }
}

/// What is written in a square: the letter, with its process, or of a page as `write_page` says.
#[derive(Clone, Copy)]
pub(crate) struct Label<'a>(pub &'a Square);

impl fmt::Display for Label<'_> {
    fn fmt<W: fmt::Write>(&self, f: &mut fmt::Formatter<W>) -> fmt::Result {
        let square = self.0;
        let letter = char::from(letter(square.role));
        match square.role {
            Some(Role::Directory { pid }) => write!(f, "{letter}{}", pid.number()),
            Some(Role::Table { pid, .. }) => write!(f, "{letter}{}", pid.number()),
            Some(Role::Page { count }) => write_page(f, count, square.owners),
            _ => write!(f, "{letter}"),
        }
    }
}

/// Who maps a page, in words.
#[derive(Clone, Copy)]
struct Mappers(Owners);

impl fmt::Display for Mappers {
    fn fmt<W: fmt::Write>(&self, f: &mut fmt::Formatter<W>) -> fmt::Result {
        match self.0 {
            Owners::Nobody => write!(f, "no process"),
            Owners::One(pid) => write!(f, "process {}", pid.number()),
            Owners::Two(first, second) => {
                write!(f, "processes {} and {}", first.number(), second.number())
            }
            Owners::More(first, second) => {
                write!(
                    f,
                    "processes {}, {} and others",
                    first.number(),
                    second.number()
                )
            }
        }
    }
}

/// What a frame is and who holds it, in words.
#[derive(Clone, Copy)]
pub(crate) struct Title<'a>(pub &'a Square);

impl fmt::Display for Title<'_> {
    fn fmt<W: fmt::Write>(&self, f: &mut fmt::Formatter<W>) -> fmt::Result {
        let square = self.0;
        write!(f, "frame {}: ", square.frame.0)?;
        match square.role {
            Some(Role::Reserved) => write!(f, "reserved"),
            Some(Role::Free) => write!(f, "free"),
            Some(Role::Directory { pid }) => write!(f, "directory of process {}", pid.number()),
            Some(Role::Table { pid, slot }) => {
                write!(f, "table of process {}, slot {slot}", pid.number())
            }
            Some(Role::Page { count }) => {
                write!(
                    f,
                    "page, held by {count}, mapped by {}",
                    Mappers(square.owners)
                )
            }
            None => write!(f, "none"),
        }
    }
}

/// Draws the lower half of a square in another colour.
pub(crate) fn draw_half<W: Write>(
    writer: &mut W,
    corner: (u32, u32),
    side: u32,
    color: &'static str,
) -> io::Result<()>
    requires { (corner.0 ≤ 4096) × (corner.1 ≤ 8388608) × (side ≤ 48) }
{
    let (left, top) = corner;
    let (right, bottom) = (left + side, top + side);
    write!(
        writer,
        "<path d=\"M{left} {bottom}L{right} {bottom}L{right} {top}Z\" fill=\"{color}\"/>"
    )
}

/// Draws one tick.
fn draw_tick<W: Write>(writer: &mut W, left: u32, top: u32, ink: &'static str) -> io::Result<()>
    requires { top ≤ 8388656 }
{
    let bottom = top + 8;
    write!(
        writer,
        "<path d=\"M{left} {top}L{left} {bottom}\" stroke=\"{ink}\" stroke-width=\"2\"/>"
    )
}

/// Draws so many ticks in sequence, from a corner on.
pub(crate) fn draw_ticks<W: Write>(
    writer: &mut W,
    corner: (u32, u32),
    step: u32,
    count: u32,
    ink: &'static str,
) -> io::Result<()>
    requires { (corner.0 ≤ 4096) × (corner.1 ≤ 8388656) × (step ≤ 3) × (count ≤ 12) }
{
    for place in 0..count {
        let behind = step.saturating_mul(place);
        draw_tick(writer, (corner.0 + 2).saturating_add(behind), corner.1, ink)?;
    }
    Ok(())
}
