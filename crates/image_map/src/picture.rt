//! The picture of an image, as SVG: a square for each frame, a legend, and a bar for each process.

ghost use Rattle.std.specs.Prelude.{◌≡◌, ◌≤◌, IfErr};
ghost use Rattle.std.specs.Io.KnownBytes.{Keeps};
ghost use Rattle.image_check.specs.Told.{verdict_on};

use crate::formats::Format;
use crate::frames::{begins_stretch, free_rows, is_free_row, is_wide, stretch_length};
use crate::layout::{BAR, LEGEND, Look, MOST_ROWS, PANEL, Scale, TOP};
use crate::owners::Mapped;
use crate::panel::{draw_bars, draw_legend, live_processes};
use crate::squares::{Label, Square, Title, draw_half, draw_ticks, light, square_of, ticks};
use image_check::{ImageRef, Verdict};
use page_words::Frame;
use std::alloc::Global;
use std::io;
use std::io::Write;

/// Whether the frames of a row are drawn: all rows of up to 4,096 frames, and of more those with a frame in use.
fn shows_row(image: &ImageRef<'_>, row: u32) -> bool
    requires { row ≤ MOST_ROWS }
{
    !is_wide(image) || 16_384 < row || !is_free_row(image, row)
}

/// How many lines a row has: one, or none if it is in a stretch of free rows that began before.
fn lines_of(image: &ImageRef<'_>, row: u32) -> u32
    requires { row ≤ MOST_ROWS }
    ensures { result ≤ 1 }
{
    if shows_row(image, row) || begins_stretch(image, row.min(16_384)) {
        1
    } else {
        0
    }
}

/// How many lines all rows have.
fn line_count(image: &ImageRef<'_>, scale: Scale) -> u32
    ensures { result ≤ MOST_ROWS }
{
    let mut lines = 0;
    for row in 0..scale.rows(image.frames()) {
        lines += lines_of(image, row);
    }
    lines
}

/// The height of a picture.
fn height_of(image: &ImageRef<'_>, scale: Scale) -> u32 {
    let (_, last) = scale.corner(line_count(image, scale).saturating_sub(1), 0);
    let squares = last + scale.pitch() + 24;
    let bars = TOP + LEGEND + BAR * live_processes(image) + 16;
    squares.max(bars)
}

/// Begins a picture: its size, its ground and its title.
fn draw_front<W: Write>(
    writer: &mut W,
    format: Format,
    image: &ImageRef<'_>,
    verdict: &Verdict,
    scale: Scale,
) -> io::Result<()> {
    let width = scale.panel() + PANEL;
    let height = height_of(image, scale);
    let judged = if verdict.sound() {
        "sound"
    } else {
        "not sound"
    };
    let frames = image.frames();
    write!(
        writer,
        "<svg xmlns=\"http://www.w3.org/2000/svg\" width=\"{width}\" height=\"{height}\" "
    )?;
    write!(
        writer,
        "font-family=\"DejaVu Sans Mono, Menlo, Consolas, monospace\" font-size=\"12\">\n"
    )?;
    write!(
        writer,
        "<rect width=\"100%\" height=\"100%\" rx=\"8\" fill=\"#fcfcfa\" stroke=\"#b8b8b2\"/>\n"
    )?;
    match format {
        Format::Image(version) => write!(
            writer,
            "<text x=\"20\" y=\"32\" font-size=\"17\">image of {frames} frames, version {version}: {judged}</text>\n"
        ),
        Format::Snapshot => write!(
            writer,
            "<text x=\"20\" y=\"32\" font-size=\"17\">snapshot of {frames} frames: {judged}</text>\n"
        ),
    }
}

/// Draws a red edge, and after it the letter and the number of a clause.
fn draw_mark<W: Write>(
    writer: &mut W,
    corner: (u32, u32),
    look: &Look,
    clause: u32,
) -> io::Result<()>
    requires { (corner.0 ≤ 4096) × (corner.1 ≤ 8388608) × (look.now.clause ≤ 48) }
{
    let (left, top) = corner;
    let side = look.side;
    let font = look.font;
    let middle = left + side / 2;
    let base = top + look.clause;
    write!(
        writer,
        "<rect x=\"{left}\" y=\"{top}\" width=\"{side}\" height=\"{side}\" fill=\"none\" stroke=\"#d40000\" stroke-width=\"3\"/>"
    )?;
    write!(
        writer,
        "<text x=\"{middle}\" y=\"{base}\" font-size=\"{font}\" font-weight=\"bold\" text-anchor=\"middle\" fill=\"#d40000\" "
    )?;
    write!(
        writer,
        "stroke=\"#ffffff\" stroke-width=\"2\" paint-order=\"stroke\">F{clause}</text>"
    )
}

/// Draws the ground of a square, behind its title.
fn draw_ground<W: Write>(
    writer: &mut W,
    square: &Square,
    corner: (u32, u32),
    side: u32,
) -> io::Result<()>
    requires { (corner.0 ≤ 4096) × (corner.1 ≤ 8388608) × (side ≤ 48) }
{
    let (left, top) = corner;
    let ground = square.ground();
    write!(writer, "<title>{}", Title(square))?;
    if let Some(clause) = square.failing {
        write!(writer, "; fails F{}", clause.number())?;
    }
    write!(
        writer,
        "</title><rect x=\"{left}\" y=\"{top}\" width=\"{side}\" height=\"{side}\" fill=\"{ground}\" stroke=\"#9a9a94\"/>"
    )?;
    if let Some(second) = square.second() {
        draw_half(writer, corner, side, light(second))?;
    }
    Ok(())
}

/// Draws the ticks of a square's process at its upper edge, and those of a second one at its lower edge.
fn draw_square_ticks<W: Write>(
    writer: &mut W,
    square: &Square,
    corner: (u32, u32),
    look: &Look,
) -> io::Result<()>
    requires { (corner.0 ≤ 4096) × (corner.1 ≤ 8388608) × (look.now.side ≤ 48) × (look.now.tick ≤ 3) }
{
    let ink = square.ink();
    if let Some(first) = square.process() {
        draw_ticks(writer, corner, look.tick, ticks(first), ink)?;
    }
    if let Some(second) = square.second() {
        let lower = (corner.0, corner.1 + look.side.saturating_sub(8));
        draw_ticks(writer, lower, look.tick, ticks(second), ink)?;
    }
    Ok(())
}

/// The base line of a square's label, below its upper edge.
fn base_of(square: &Square, look: &Look) -> u32
    requires { (look.now.label ≤ 48) × (look.now.upper ≤ 48) }
    ensures { result ≤ 48 }
{
    if square.failing.is_some() {
        look.upper
    } else {
        look.label
    }
}

/// Draws a square at a corner: its ground and title, its label, and a red edge where its frame fails a clause.
fn draw_square<W: Write>(
    writer: &mut W,
    square: &Square,
    corner: (u32, u32),
    look: &Look,
) -> io::Result<()>
    requires corner { (corner.0 ≤ 4096) × (corner.1 ≤ 8388608) }
    requires look { (look.now.side ≤ 48) × (look.now.label ≤ 48) × (look.now.upper ≤ 48) × (look.now.clause ≤ 48)
        × (look.now.tick ≤ 3) }
{
    let middle = corner.0 + look.side / 2;
    let base = corner.1 + base_of(square, look);
    let font = look.font;
    let ink = square.ink();
    write!(writer, "<g>")?;
    draw_ground(writer, square, corner, look.side)?;
    draw_square_ticks(writer, square, corner, look)?;
    write!(
        writer,
        "<text x=\"{middle}\" y=\"{base}\" font-size=\"{font}\" text-anchor=\"middle\" fill=\"{ink}\">{}</text>",
        Label(square)
    )?;
    if let Some(clause) = square.failing {
        draw_mark(writer, corner, look, clause.number())?;
    }
    write!(writer, "</g>\n")
}

/// Draws the number of the first frame of a row before a line.
fn draw_row_number<W: Write>(writer: &mut W, frame: u32, line: u32, scale: Scale) -> io::Result<()>
    requires { line ≤ MOST_ROWS }
{
    let base = scale.corner(line, 0).1 + scale.pitch() * 5 / 8;
    write!(
        writer,
        "<text x=\"58\" y=\"{base}\" font-size=\"11\" text-anchor=\"end\" fill=\"#555555\">{frame}</text>\n"
    )
}

/// What is drawn of an image: it, the verdict on it, and what its processes map.
#[derive(Clone, Copy)]
struct Scene<'a> {
    image: &'a ImageRef<'a>,
    verdict: &'a Verdict,
    mapped: &'a Mapped,
    scale: Scale,
}

/// Draws the square of a frame at a place of a line, if there is such a frame.
fn draw_frame<W: Write>(
    writer: &mut W,
    scene: &Scene<'_>,
    frame: u32,
    line: u32,
    column: u32,
) -> io::Result<()>
    requires { (line ≤ MOST_ROWS) × (column ≤ 64) }
{
    if frame >= scene.image.frames() {
        return Ok(());
    }
    let square = square_of(scene.image, scene.verdict, scene.mapped, Frame(frame));
    let corner = scene.scale.corner(line, column);
    draw_square(writer, &square, corner, &scene.scale.look())
}

/// Draws the squares of a row, as a line.
fn draw_row<W: Write>(writer: &mut W, scene: &Scene<'_>, row: u32, line: u32) -> io::Result<()>
    requires { (row ≤ MOST_ROWS) × (line ≤ MOST_ROWS) }
{
    let first = scene.scale.first(row);
    for column in 0..scene.scale.columns() {
        draw_frame(writer, scene, first + column, line, column)?;
    }
    Ok(())
}

/// Writes how many frames are free in sequence, from a row on, as a line.
fn draw_stretch<W: Write>(writer: &mut W, scene: &Scene<'_>, row: u32, line: u32) -> io::Result<()>
    requires { (row ≤ 16384) × (line ≤ MOST_ROWS) }
{
    let (left, top) = scene.scale.corner(line, 0);
    let base = top + scene.scale.pitch() * 5 / 8;
    let free = stretch_length(scene.image, row, free_rows(scene.image, row));
    write!(
        writer,
        "<text x=\"{left}\" y=\"{base}\" font-size=\"11\" fill=\"#555555\">{free} free frames</text>\n"
    )
}

/// Draws the line of a row: its squares, or how many frames are free from it on.
fn draw_line<W: Write>(writer: &mut W, scene: &Scene<'_>, row: u32, line: u32) -> io::Result<()>
    requires { (row ≤ MOST_ROWS) × (line ≤ MOST_ROWS) }
{
    draw_row_number(writer, scene.scale.first(row), line, scene.scale)?;
    if shows_row(scene.image, row) {
        draw_row(writer, scene, row, line)
    } else {
        draw_stretch(writer, scene, row.min(16_384), line)
    }
}

/// Draws a square for each frame. Of more than 4,096 frames, rows that are all free have one line together.
fn draw_squares<W: Write>(writer: &mut W, scene: &Scene<'_>) -> io::Result<()> {
    let mut line = 0;
    for row in 0..scene.scale.rows(scene.image.frames()) {
        let lines = lines_of(scene.image, row);
        if lines > 0 {
            draw_line(writer, scene, row, line)?;
        }
        line += lines;
    }
    Ok(())
}

/// Draws all of a picture.
fn draw<W: Write>(writer: &mut W, format: Format, scene: &Scene<'_>) -> io::Result<()> {
    draw_front(writer, format, scene.image, scene.verdict, scene.scale)?;
    draw_squares(writer, scene)?;
    draw_legend(writer, scene.scale)?;
    draw_bars(
        writer,
        scene.image,
        scene.verdict,
        scene.mapped,
        scene.scale,
    )?;
    write!(writer, "</svg>\n")
}

/// Why a picture was not written.
#[derive(Clone, Copy, Debug, PartialEq, Eq)]
pub enum PictureFault {
    /// There was no memory to find which processes map each frame. Nothing was written.
    NoMemory,
    /// A write failed.
    WriteFailed,
}

/// Writes the picture of an image, of a file of this format, as SVG. Each frame is a square, in the hue of its process,
/// with ticks that distinguish it from others of that hue. The square's title says what the frame is and which
/// processes hold it. Of more than 4,096 frames, rows in sequence that are all free have one line, with the number of
/// their frames. A legend follows. Each live process has its record, a bar of used, given and room, and its lazy pages
/// as dashed squares with their number. A frame that fails a clause has a red edge, a process a red mark, each with the
/// clause.
///
/// NoMemory if there is none for which processes map each frame. WriteFailed where a write fails.
pub fn write_picture<W: Write>(
    alloc: Global,
    format: Format,
    image: &ImageRef<'_>,
    verdict: &Verdict,
    writer: &mut W,
) -> Result<(), PictureFault>
    requires { verdict.now ≡ verdict_on image.now }
    ensures { IfErr result (λ fault. fault ≡ PictureFault.NoMemory →
        Keeps (W.contents writer.old) (W.contents writer.new)) }
{
    let Ok(mapped) = Mapped::of(alloc, image) else {
        return Err(PictureFault::NoMemory);
    };
    let scene = Scene {
        image,
        verdict,
        mapped: &mapped,
        scale: Scale::of(image.frames()),
    };
    match draw(writer, format, &scene) {
        Ok(()) => Ok(()),
        Err(_) => Err(PictureFault::WriteFailed),
    }
}
