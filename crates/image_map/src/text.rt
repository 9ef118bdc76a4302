//! The text of an image, written line by line.

ghost use Rattle.std.specs.Prelude.{◌≡◌, ◌<◌, ◌≤◌, ◌*◌, ◌-◌, Some, length, take, OnOk, OnErr};
ghost use Rattle.std.specs.List.{flat_map};
ghost use Rattle.std.specs.Io.KnownBytes.{Appends};
ghost use Rattle.address_space.specs.Image.{directory_at};
ghost use Rattle.memory_image.specs.Image.{frames, process_at, memory_of};
ghost use Rattle.text_output.specs.Output.{AppendsFront};
ghost use Rattle.image_check.specs.Told.{verdict_on};
ghost use Rattle.image_map.specs.Text.{run_line, more_line, runs_text, slot_text, process_line, bar_line, rows, row_text, frames_heading, image_line, pages_text, process_text, processes_text, rows_text, frames_text, limit, map_text};

use crate::formats::Format;
use crate::frames::{row_count, row_text};
use crate::lines::{bar_line, image_line, more_line, process_line, run_line};
use crate::runs::{Run, runs_at};
use image_check::{ImageRef, Process, Verdict, WriteFailed, pid_of};
use page_map::{FIRST_SLOT, SLOT_END};
use page_words::{Frame, Pid};
use std::io::Write;
use text_output::write_whole;

/// Writes the line of a run.
fn write_run<W: Write>(image: &ImageRef<'_>, run: &Run, writer: &mut W) -> Result<(), WriteFailed>
    ensures ok { OnOk result (Appends (W.contents writer.old) (W.contents writer.new) (run_line image.now run.now)) }
    ensures err { OnErr result (AppendsFront (W.contents writer.old) (W.contents writer.new)
        (run_line image.now run.now)) }
{
    write_whole(writer, &run_line(image, run))
}

/// Writes a line for each run.
fn write_runs<W: Write>(
    image: &ImageRef<'_>,
    runs: &[Run],
    writer: &mut W,
) -> Result<(), WriteFailed>
    ensures ok { OnOk result (Appends (W.contents writer.old) (W.contents writer.new)
        (flat_map (run_line image.now) runs.now)) }
    ensures err { OnErr result (AppendsFront (W.contents writer.old) (W.contents writer.new)
        (flat_map (run_line image.now) runs.now)) }
{
    for place in 0..runs.len() {
        write_run(image, &runs[place], writer)?;
    }
    Ok(())
}

/// The runs that are listed, so many at most.
fn listed(runs: &[Run], most: u32) -> &[Run]
    ensures { result.now ≡ take most runs.now }
{
    &runs[..runs.len().min(most as usize)]
}

/// Writes how many runs are not listed, where there are some.
fn write_more<W: Write>(most: u32, runs: &[Run], writer: &mut W) -> Result<(), WriteFailed>
    requires { length runs.now ≤ 1024 }
    ensures ok { OnOk result (Appends (W.contents writer.old) (W.contents writer.new)
        (more_line (length runs.now - most))) }
    ensures err { OnErr result (AppendsFront (W.contents writer.old) (W.contents writer.new)
        (more_line (length runs.now - most))) }
{
    let more = (runs.len() as u32).saturating_sub(most);
    write_whole(writer, &more_line(more))
}

/// Writes the lines of the runs of a table, of which so many are listed at most.
fn write_table<W: Write>(
    image: &ImageRef<'_>,
    most: u32,
    runs: &[Run],
    writer: &mut W,
) -> Result<(), WriteFailed>
    requires { length runs.now ≤ 1024 }
    ensures ok { OnOk result (Appends (W.contents writer.old) (W.contents writer.new)
        (runs_text image.now most runs.now)) }
    ensures err { OnErr result (AppendsFront (W.contents writer.old) (W.contents writer.new)
        (runs_text image.now most runs.now)) }
{
    write_runs(image, listed(runs, most), writer)?;
    write_more(most, runs, writer)
}

/// Writes the lines of the runs of the table of a slot of a process's directory.
fn write_slot<W: Write>(
    image: &ImageRef<'_>,
    most: u32,
    pid: Pid,
    directory: Frame,
    slot: u32,
    writer: &mut W,
) -> Result<(), WriteFailed>
    requires directory { directory_at (memory_of image.now) pid ≡ Some directory }
    requires slot { (256 ≤ slot) × (slot < 960) }
    ensures ok { OnOk result (Appends (W.contents writer.old) (W.contents writer.new)
        (slot_text image.now most pid slot)) }
    ensures err { OnErr result (AppendsFront (W.contents writer.old) (W.contents writer.new)
        (slot_text image.now most pid slot)) }
{
    let runs = runs_at(image, pid, directory, slot);
    write_table(image, most, runs.as_slice(), writer)
}

/// Writes the lines of the runs of all tables of a process.
fn write_pages<W: Write>(
    image: &ImageRef<'_>,
    most: u32,
    pid: Pid,
    directory: Frame,
    writer: &mut W,
) -> Result<(), WriteFailed>
    requires { directory_at (memory_of image.now) pid ≡ Some directory }
    ensures ok { OnOk result (Appends (W.contents writer.old) (W.contents writer.new) (pages_text image.now most pid)) }
    ensures err { OnErr result (AppendsFront (W.contents writer.old) (W.contents writer.new)
        (pages_text image.now most pid)) }
{
    for slot in FIRST_SLOT..SLOT_END {
        write_slot(image, most, pid, directory, slot, writer)?;
    }
    Ok(())
}

/// Writes what a live process has.
fn write_process_line<W: Write>(
    number: u8,
    process: &Process,
    writer: &mut W,
) -> Result<(), WriteFailed>
    ensures ok { OnOk result (Appends (W.contents writer.old) (W.contents writer.new)
        (process_line number process.now)) }
    ensures err { OnErr result (AppendsFront (W.contents writer.old) (W.contents writer.new)
        (process_line number process.now)) }
{
    write_whole(writer, &process_line(u32::from(number), process))
}

/// Writes the bar of a live process.
fn write_bar<W: Write>(process: &Process, writer: &mut W) -> Result<(), WriteFailed>
    ensures ok { OnOk result (Appends (W.contents writer.old) (W.contents writer.new) (bar_line process.now)) }
    ensures err { OnErr result (AppendsFront (W.contents writer.old) (W.contents writer.new) (bar_line process.now)) }
{
    write_whole(writer, &bar_line(process))
}

/// Writes the lines of a live process: what it has, its bar and its pages.
fn write_live<W: Write>(
    image: &ImageRef<'_>,
    most: u32,
    pid: Pid,
    process: &Process,
    writer: &mut W,
) -> Result<(), WriteFailed>
    requires { process_at image.now pid ≡ Some process.now }
    ensures ok { OnOk result (Appends (W.contents writer.old) (W.contents writer.new)
        (process_text image.now most pid (Some process.now))) }
    ensures err { OnErr result (AppendsFront (W.contents writer.old) (W.contents writer.new)
        (process_text image.now most pid (Some process.now))) }
{
    write_process_line(pid.number(), process, writer)?;
    write_bar(process, writer)?;
    write_pages(image, most, pid, process.directory, writer)
}

/// Writes the lines of a process, where it is live.
fn write_process<W: Write>(
    image: &ImageRef<'_>,
    most: u32,
    number: u8,
    writer: &mut W,
) -> Result<(), WriteFailed>
    requires { number < 64 }
    ensures ok { OnOk result (Appends (W.contents writer.old) (W.contents writer.new)
        (process_text image.now most number (process_at image.now number))) }
    ensures err { OnErr result (AppendsFront (W.contents writer.old) (W.contents writer.new)
        (process_text image.now most number (process_at image.now number))) }
{
    let pid = pid_of(number);
    match image.process(pid) {
        Some(process) => write_live(image, most, pid, &process, writer),
        None => Ok(()),
    }
}

/// Writes the lines of all processes.
fn write_processes<W: Write>(
    image: &ImageRef<'_>,
    most: u32,
    writer: &mut W,
) -> Result<(), WriteFailed>
    ensures ok { OnOk result (Appends (W.contents writer.old) (W.contents writer.new) (processes_text image.now most)) }
    ensures err { OnErr result (AppendsFront (W.contents writer.old) (W.contents writer.new)
        (processes_text image.now most)) }
{
    for number in 0..64 {
        write_process(image, most, number, writer)?;
    }
    Ok(())
}

/// Writes the line that begins with a row of frames, if one does.
fn write_row<W: Write>(image: &ImageRef<'_>, row: u32, writer: &mut W) -> Result<(), WriteFailed>
    requires { row ≤ 16384 }
    ensures ok { OnOk result (Appends (W.contents writer.old) (W.contents writer.new) (row_text image.now row)) }
    ensures err { OnErr result (AppendsFront (W.contents writer.old) (W.contents writer.new) (row_text image.now row)) }
{
    write_whole(writer, &row_text(image, row))
}

/// Writes the rows of frames.
fn write_rows<W: Write>(image: &ImageRef<'_>, writer: &mut W) -> Result<(), WriteFailed>
    ensures ok { OnOk result (Appends (W.contents writer.old) (W.contents writer.new) (rows_text image.now)) }
    ensures err { OnErr result (AppendsFront (W.contents writer.old) (W.contents writer.new) (rows_text image.now)) }
{
    for row in 0..row_count(image) {
        write_row(image, row, writer)?;
    }
    Ok(())
}

/// Writes what the letters of the rows mean.
fn write_heading<W: Write>(writer: &mut W) -> Result<(), WriteFailed>
    ensures ok { OnOk result (Appends (W.contents writer.old) (W.contents writer.new) (frames_heading)) }
    ensures err { OnErr result (AppendsFront (W.contents writer.old) (W.contents writer.new) (frames_heading)) }
{
    write_whole(
        writer,
        b"frames # reserved . free D directory T table P page S shared\n",
    )
}

/// Writes the rows of frames, behind what their letters mean.
fn write_frames<W: Write>(image: &ImageRef<'_>, writer: &mut W) -> Result<(), WriteFailed>
    ensures ok { OnOk result (Appends (W.contents writer.old) (W.contents writer.new) (frames_text image.now)) }
    ensures err { OnErr result (AppendsFront (W.contents writer.old) (W.contents writer.new) (frames_text image.now)) }
{
    write_heading(writer)?;
    write_rows(image, writer)
}

/// How many runs of a table are listed at most: all where nothing fails, else as many as there are frames.
fn limit(image: &ImageRef<'_>, verdict: &Verdict) -> u32
    requires { verdict.now ≡ verdict_on image.now }
    ensures { result ≡ limit image.now }
{
    if verdict.sound() {
        1024
    } else {
        image.frames()
    }
}

/// Writes the line of the image.
fn write_image_line<W: Write>(
    format: Format,
    image: &ImageRef<'_>,
    writer: &mut W,
) -> Result<(), WriteFailed>
    ensures ok { OnOk result (Appends (W.contents writer.old) (W.contents writer.new) (image_line format image.now)) }
    ensures err { OnErr result (AppendsFront (W.contents writer.old) (W.contents writer.new)
        (image_line format image.now)) }
{
    write_whole(writer, &image_line(format, image))
}

/// Writes the text of an image, of a file of this format, with the verdict on it. It has a line for the image, and for
/// each live process, in ascending order, its record, a bar and the runs of its pages. Then come the frames, 64 in a
/// row, and the lines of the verdict. Of more than 4,096 frames, rows in sequence that are all free have one line, with
/// the number of their frames.
///
/// Pages are listed of the tables that their process's directory names and that have this role, so that
/// each table is read once, whatever the image holds. Where a clause fails, of each table as many runs are
/// listed at most as there are frames, and the number of the others.
///
/// WriteFailed where a write fails; what was written is then a front of the text.
pub fn write_map<W: Write>(
    format: Format,
    image: &ImageRef<'_>,
    verdict: &Verdict,
    writer: &mut W,
) -> Result<(), WriteFailed>
    requires { verdict.now ≡ verdict_on image.now }
    ensures ok { OnOk result (Appends (W.contents writer.old) (W.contents writer.new) (map_text format image.now)) }
    ensures err { OnErr result (AppendsFront (W.contents writer.old) (W.contents writer.new)
        (map_text format image.now)) }
{
    write_image_line(format, image, writer)?;
    write_processes(image, limit(image, verdict), writer)?;
    write_frames(image, writer)?;
    verdict.write_text(writer)
}
