//! The panel next to the squares of a picture: the legend, and a bar for each process.

ghost use Rattle.std.specs.Prelude.{◌≤◌, ◌<◌};

use crate::layout::{BAR, LEGEND, Scale, TOP};
use crate::lines::{given_marks, used_marks};
use crate::owners::Mapped;
use crate::squares::{draw_half, draw_ticks, light, middle, ticks};
use image_check::{ImageRef, Process, ProcessClause, Verdict, pid_of};
use page_words::Pid;
use std::io::Write;
use std::{fmt, io};

/// 1 where a process is live, and else 0.
fn count_live(image: &ImageRef<'_>, number: u8) -> u32
    requires { number < 64 }
    ensures { result ≤ 1 }
{
    if image.process(pid_of(number)).is_some() {
        1
    } else {
        0
    }
}

/// How many processes are live.
pub(crate) fn live_processes(image: &ImageRef<'_>) -> u32
    ensures { result ≤ 64 }
{
    let mut live = 0;
    for number in 0..64 {
        live += count_live(image, number);
    }
    live
}

/// What the legend says of one kind of square.
#[derive(Clone, Copy)]
struct Sample {
    /// The letters in it.
    label: &'static str,
    ground: &'static str,
    /// The colour of its lower half.
    half: &'static str,
    ink: &'static str,
    edge: &'static str,
    /// The dashes of its edge.
    dash: &'static str,
    /// How many ticks it has.
    ticks: u32,
    says: &'static str,
}

const SAMPLES: [Sample; 10] = [
    Sample {
        label: "#",
        ground: "#222222",
        half: "#222222",
        ink: "#ffffff",
        edge: "#9a9a94",
        dash: "none",
        ticks: 0,
        says: "reserved frame, which lazy pages read",
    },
    Sample {
        label: ".",
        ground: "#ffffff",
        half: "#ffffff",
        ink: "#888888",
        edge: "#9a9a94",
        dash: "none",
        ticks: 0,
        says: "free frame",
    },
    Sample {
        label: "D0",
        ground: "#214141",
        half: "#214141",
        ink: "#ffffff",
        edge: "#9a9a94",
        dash: "none",
        ticks: 0,
        says: "directory of process 0; the hue is the process",
    },
    Sample {
        label: "T0",
        ground: "#448888",
        half: "#448888",
        ink: "#000000",
        edge: "#9a9a94",
        dash: "none",
        ticks: 0,
        says: "table of process 0",
    },
    Sample {
        label: "P0",
        ground: "#b0cdcd",
        half: "#b0cdcd",
        ink: "#000000",
        edge: "#9a9a94",
        dash: "none",
        ticks: 0,
        says: "page of process 0",
    },
    Sample {
        label: "P5",
        ground: "#b0cdcd",
        half: "#b0cdcd",
        ink: "#000000",
        edge: "#9a9a94",
        dash: "none",
        ticks: 1,
        says: "of process 5: a tick for each five before it",
    },
    Sample {
        label: "S2",
        ground: "#b0cdcd",
        half: "#dbcda9",
        ink: "#000000",
        edge: "#9a9a94",
        dash: "none",
        ticks: 0,
        says: "page with 2 holders, the first two in colour",
    },
    Sample {
        label: "F4",
        ground: "#ffffff",
        half: "#ffffff",
        ink: "#d40000",
        edge: "#d40000",
        dash: "none",
        ticks: 0,
        says: "red edge: fails the clause of the check",
    },
    Sample {
        label: "",
        ground: "#ffffff",
        half: "#ffffff",
        ink: "#000000",
        edge: "#222222",
        dash: "3 2",
        ticks: 0,
        says: "beside a bar: lazy page, which has no frame; + others",
    },
    Sample {
        label: "",
        ground: "#448888",
        half: "#b0cdcd",
        ink: "#000000",
        edge: "#9a9a94",
        dash: "none",
        ticks: 0,
        says: "in a bar: used dark, given light, room white",
    },
];

/// Draws the square of one line of the legend, without its letters.
fn draw_sample_ground<W: Write>(
    writer: &mut W,
    sample: &Sample,
    left: u32,
    top: u32,
) -> io::Result<()>
    requires { (left ≤ 4096) × (top ≤ 4096) }
{
    let ground = sample.ground;
    let edge = sample.edge;
    let dash = sample.dash;
    write!(
        writer,
        "<rect x=\"{left}\" y=\"{top}\" width=\"20\" height=\"20\" fill=\"{ground}\" stroke=\"{edge}\" stroke-dasharray=\"{dash}\"/>"
    )?;
    draw_half(writer, (left, top), 20, sample.half)?;
    draw_ticks(writer, (left, top), 3, sample.ticks.min(12), sample.ink)
}

/// Draws one line of the legend.
fn draw_sample<W: Write>(writer: &mut W, sample: &Sample, left: u32, top: u32) -> io::Result<()>
    requires { (left ≤ 4096) × (top ≤ 4096) }
{
    let label = sample.label;
    let ink = sample.ink;
    let says = sample.says;
    let (middle, base, text) = (left + 10, top + 14, left + 30);
    draw_sample_ground(writer, sample, left, top)?;
    write!(
        writer,
        "<text x=\"{middle}\" y=\"{base}\" font-size=\"10\" text-anchor=\"middle\" fill=\"{ink}\">{label}</text>"
    )?;
    write!(writer, "<text x=\"{text}\" y=\"{base}\">{says}</text>\n")
}

/// Draws the legend.
pub(crate) fn draw_legend<W: Write>(writer: &mut W, scale: Scale) -> io::Result<()> {
    let left = scale.panel();
    for place in 0..SAMPLES.len() {
        draw_sample(writer, &SAMPLES[place], left, TOP + 25 * place as u32)?;
    }
    Ok(())
}

/// Draws one part of a bar: so many marks of 6 pixels behind so many others.
fn draw_part<W: Write>(
    writer: &mut W,
    corner: (u32, u32),
    behind: u32,
    marks: u32,
    color: &'static str,
) -> io::Result<()>
    requires { (corner.0 ≤ 4096) × (corner.1 ≤ 8388608) × (behind ≤ 40) × (marks ≤ 40) }
{
    let (left, top) = (corner.0 + 6 * behind, corner.1);
    let width = 6 * marks;
    write!(
        writer,
        "<rect x=\"{left}\" y=\"{top}\" width=\"{width}\" height=\"14\" fill=\"{color}\" stroke=\"#555555\"/>"
    )
}

/// Draws the mark of a process that fails a clause.
fn draw_failing<W: Write>(
    writer: &mut W,
    corner: (u32, u32),
    clause: ProcessClause,
) -> io::Result<()>
    requires { (corner.0 ≤ 4096) × (corner.1 ≤ 8388608) }
{
    let (left, top) = (corner.0 + 410, corner.1);
    let (text, base) = (left + 40, top + 14);
    let number = clause.number();
    write!(
        writer,
        "<rect x=\"{left}\" y=\"{top}\" width=\"80\" height=\"20\" fill=\"#ffffff\" stroke=\"#d40000\" stroke-width=\"3\"/>"
    )?;
    write!(
        writer,
        "<text x=\"{text}\" y=\"{base}\" text-anchor=\"middle\" font-weight=\"bold\" fill=\"#d40000\">fails P{number}</text>"
    )
}

/// A process's number, with its parent's.
#[derive(Clone, Copy)]
struct Named {
    pid: Pid,
    parent: Pid,
}

impl fmt::Display for Named {
    fn fmt<W: fmt::Write>(&self, f: &mut fmt::Formatter<W>) -> fmt::Result {
        let (number, parent) = (self.pid.number(), self.parent.number());
        if number == parent {
            write!(f, "process {number}")
        } else {
            write!(f, "process {number}, child of {parent}")
        }
    }
}

/// The most lazy pages of a process that are drawn.
const MOST_LAZY: u32 = 12;

/// Draws a dashed square for each lazy page after their number. Of more than `MOST_LAZY` it draws so many, and writes
/// how many others there are.
fn draw_lazy<W: Write>(writer: &mut W, lazy: u32, left: u32, top: u32) -> io::Result<()>
    requires { (left ≤ 8192) × (top ≤ 8388608) }
{
    let base = top + 12;
    write!(writer, "<text x=\"{left}\" y=\"{base}\">lazy {lazy}</text>")?;
    for place in 0..lazy.min(MOST_LAZY) {
        draw_dashed(writer, left + 70 + 13 * place, top + 2)?;
    }
    if MOST_LAZY < lazy {
        let (behind, others) = (left + 73 + 13 * MOST_LAZY, lazy - MOST_LAZY);
        write!(
            writer,
            "<text x=\"{behind}\" y=\"{base}\">+ {others}</text>"
        )?;
    }
    write!(writer, "\n")
}

/// Draws a small dashed square.
fn draw_dashed<W: Write>(writer: &mut W, left: u32, top: u32) -> io::Result<()> {
    write!(
        writer,
        "<rect x=\"{left}\" y=\"{top}\" width=\"10\" height=\"10\" fill=\"none\" stroke=\"#222222\" stroke-dasharray=\"3 2\"/>"
    )
}

/// Draws the bar of a process: used, given and room, with the ticks of its number.
fn draw_bar<W: Write>(
    writer: &mut W,
    pid: Pid,
    process: &Process,
    corner: (u32, u32),
) -> io::Result<()>
    requires { (corner.0 ≤ 4096) × (corner.1 ≤ 8388608) }
{
    let (used, given) = (used_marks(process), given_marks(process));
    draw_part(writer, corner, 0, 40, "#ffffff")?;
    draw_part(writer, corner, 0, used, middle(pid))?;
    draw_part(writer, corner, used, given, light(pid))?;
    draw_ticks(writer, corner, 3, ticks(pid), "#000000")
}

/// Draws a live process: what it has, a bar of used, given and room, and its lazy pages.
fn draw_process<W: Write>(
    writer: &mut W,
    pid: Pid,
    process: &Process,
    lazy: u32,
    corner: (u32, u32),
) -> io::Result<()>
    requires { (corner.0 ≤ 4096) × (corner.1 ≤ 131072) }
{
    let (left, top) = corner;
    let (base, bar) = (top + 11, top + 17);
    let name = Named {
        pid,
        parent: process.parent,
    };
    let (used, given, quota) = (process.used, process.given, process.quota);
    write!(
        writer,
        "<text x=\"{left}\" y=\"{base}\">{name}: used {used}, given {given}, quota {quota}</text>"
    )?;
    draw_bar(writer, pid, process, (left, bar))?;
    draw_lazy(writer, lazy, left + 250, bar)
}

/// Draws a process, where it is live, and the mark of a clause that it fails.
fn draw_member<W: Write>(
    writer: &mut W,
    image: &ImageRef<'_>,
    verdict: &Verdict,
    mapped: &Mapped,
    pid: Pid,
    corner: (u32, u32),
) -> io::Result<()>
    requires { (corner.0 ≤ 4096) × (corner.1 ≤ 131072) }
{
    if let Some(process) = image.process(pid) {
        draw_process(writer, pid, &process, mapped.lazy(pid), corner)?;
    }
    if let Some(clause) = verdict.process(pid) {
        draw_failing(writer, corner, clause)?;
    }
    Ok(())
}

/// Draws the bars of all live processes, one below the other.
pub(crate) fn draw_bars<W: Write>(
    writer: &mut W,
    image: &ImageRef<'_>,
    verdict: &Verdict,
    mapped: &Mapped,
    scale: Scale,
) -> io::Result<()> {
    let mut drawn = 0;
    for number in 0..64 {
        let corner = (scale.panel(), TOP + LEGEND + BAR * drawn);
        draw_member(writer, image, verdict, mapped, pid_of(number), corner)?;
        drawn += count_live(image, number);
    }
    Ok(())
}
