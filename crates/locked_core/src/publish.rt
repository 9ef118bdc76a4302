//! The steps of the writer and of the readers under the rule.
//!
//! The side that no reader reads is brought up to the log, in place, and is shown then. So no page is copied, and the
//! writer's queue of operations stays empty.
ghost use Rattle.std.specs.Prelude.{◌≡◌, ◌+◌, ◌<◌, ◌≤◌, ◌^◌, [], true, false, IfOk, IfSome, length};
ghost use Rattle.crossbeam_utils.specs.Register.{TurnsAt};
ghost use Rattle.left_right.specs.Sides.{view};
ghost use Rattle.locked_core.specs.Moments.{entries_in};
ghost use Rattle.locked_core.specs.Pages.{LagsBehind, page};
ghost use Rattle.locked_core.specs.Published.{view_of, IsOf, Keeps, Opens, Stays};
ghost use Rattle.memory_report.specs.Histories.{Legal};

use crate::book::Beginning;
use crate::call_log::CallLog;
use crate::published_report::Shown;
use crate::rule::{Later, LogReader, LogWriter, Look, Notes, Opening};
use core::mem::replace_with;
use left_right::writer::Writer;
use std::alloc::{AllocError, Global};
use std::sync::Wait;

/// A copy of what is published. None where the crate lets the reader not in.
pub fn look(reader: LogReader) -> (LogReader, Option<Shown>)
    ensures view { view result.0.place ≡ view reader.place }
    ensures shown { IfSome result.1 (λ s. IsOf (view reader.place) s) }
{
    match reader.enter_as::<Look>() {
        Ok(reading) => {
            let shown = reading.get().again();
            (reading.leave(), Some(shown))
        }
        Err(reader) => (reader, None),
    }
}

/// A reader of the kernel that the writer publishes.
pub fn reader_of(writer: &mut LogWriter) -> Result<LogReader, AllocError>
    ensures writer { (view writer.new.desk.place ≡ view writer.old.desk.place)
        × (writer.new.desk.shown ≡ writer.old.desk.shown) × (writer.new.desk.spare ≡ writer.old.desk.spare) }
    ensures reader { IfOk result (λ r. view r.place ≡ view writer.old.desk.place) }
{
    let mut reader = writer.factory().reader()?;
    reader.learn::<Notes>(writer.desk.tell::<Notes>());
    Ok(reader)
}

/// Shows this page to readers from now on, in the place of the side that none of them reads. It allocates nothing.
fn show_opening<R: Wait>(rt: &R, writer: &mut LogWriter, page: Shown)
    requires { TurnsAt Keeps writer.old.desk.place.id
        (view writer.old.desk.place) writer.old.desk.shown.value page Opens }
    ensures shown { (writer.new.desk.shown.value ≡ page) × (writer.new.desk.spare.value ≡ writer.old.desk.shown.value) }
    ensures rule { Opens (view writer.old.desk.place) writer.old.desk.shown.value page (view writer.new.desk.place) }
{
    replace_with(
        &mut writer.desk,
        page,
        |desk, page|
            requires { TurnsAt Keeps desk.place.id (view desk.place) desk.shown.value page Opens }
        {
            let (open, mut spare) = desk.open(rt);
            *spare = page;
            (open.show_as::<Opening>(spare), ())
        },
    )
}

/// A writer over the opening, with room for so many readers.
pub fn writer_of<R: Wait>(
    rt: &R,
    alloc: Global,
    frames: u32,
    seen: &Beginning,
    readers: usize,
) -> Result<LogWriter, AllocError>
    requires size { (16 ≤ frames) × (frames ≤ 1048576) }
    requires readers { (0 < readers) × (readers < 2 ^ 32) }
    requires empty { seen.now.log ≡ [] }
    ensures shown { IfOk result (λ w. (w.desk.shown.value ≡ page frames seen.now.book [])
        × (w.desk.spare.value ≡ page frames seen.now.book [])) }
    ensures view { IfOk result (λ w. view w.desk.place ≡ view_of frames seen.now.book) }
{
    let first = Shown::opening(frames, seen);
    let (second, third) = (first.again(), first.again());
    let mut writer: LogWriter = Writer::new(alloc, first, second, readers)?;
    show_opening(rt, &mut writer, third);
    Ok(writer)
}

/// Publishes the report on the log, of which this is the prefix that was seen. The side that no reader reads takes in
/// what it lacks, which the log still keeps. It allocates nothing.
pub fn publish<R: Wait>(rt: &R, writer: &mut LogWriter, log: &CallLog, seen: &Beginning)
    requires kernel { view writer.old.desk.place ≡ view_of writer.old.desk.spare.value.frames seen.now.book }
    requires seen { entries_in seen.now.log ≡ log.now.entries }
    requires behind { LagsBehind writer.old.desk.spare.value
        (page writer.old.desk.spare.value.frames seen.now.book log.now.entries) }
    requires kept { length log.now.entries ≤ length writer.old.desk.spare.value.log + log.now.keeps }
    requires legal { Legal writer.old.desk.spare.value.frames log.now.entries }
    ensures view { view writer.new.desk.place ≡ view writer.old.desk.place }
    ensures shown { writer.new.desk.shown.value ≡ page writer.old.desk.spare.value.frames seen.now.book log.now.entries }
    ensures spare { writer.new.desk.spare.value ≡ writer.old.desk.shown.value }
{
    replace_with(
        &mut writer.desk,
        (log, seen),
        |desk, news|
            requires { (entries_in news.1.now.log ≡ news.0.now.entries)
                × LagsBehind desk.spare.value (page desk.spare.value.frames news.1.now.book news.0.now.entries)
                × (length news.0.now.entries ≤ length desk.spare.value.log + news.0.now.keeps)
                × Legal desk.spare.value.frames news.0.now.entries
                × TurnsAt Keeps desk.place.id (view desk.place) desk.shown.value
                (page desk.spare.value.frames news.1.now.book news.0.now.entries) Stays }
        {
            let (open, mut spare) = desk.open(rt);
            spare.catch_up(news.0, news.1);
            (open.show_as::<Later>(spare), ())
        },
    )
}

/// Publishes the report as `publish` does, if a monitor reads what is published. Otherwise changes nothing.
pub fn keep_up<R: Wait>(
    rt: &R,
    writer: &mut LogWriter,
    is_watched: bool,
    log: &CallLog,
    seen: &Beginning,
)
    requires kernel { view writer.old.desk.place ≡ view_of writer.old.desk.spare.value.frames seen.now.book }
    requires seen { entries_in seen.now.log ≡ log.now.entries }
    requires behind { LagsBehind writer.old.desk.spare.value
        (page writer.old.desk.spare.value.frames seen.now.book log.now.entries) }
    requires shown { LagsBehind writer.old.desk.shown.value
        (page writer.old.desk.spare.value.frames seen.now.book log.now.entries) }
    requires kept { is_watched ≡ true
        → length log.now.entries ≤ length writer.old.desk.spare.value.log + log.now.keeps }
    requires legal { Legal writer.old.desk.spare.value.frames log.now.entries }
    ensures view { view writer.new.desk.place ≡ view writer.old.desk.place }
    ensures unwatched { is_watched ≡ false → writer.new ≡ writer.old }
    ensures watched { is_watched ≡ true → writer.new.desk.shown.value
        ≡ page writer.old.desk.spare.value.frames seen.now.book log.now.entries }
    ensures behind { is_watched ≡ true → writer.new.desk.spare.value ≡ writer.old.desk.shown.value }
    ensures shown { LagsBehind writer.new.desk.shown.value
        (page writer.old.desk.spare.value.frames seen.now.book log.now.entries) }
    ensures spare { LagsBehind writer.new.desk.spare.value
        (page writer.old.desk.spare.value.frames seen.now.book log.now.entries) }
{
    if !is_watched {
        return;
    }
    publish(rt, writer, log, seen);
}
