//! The commands on snapshots, which have a machine of any size with its offers.

ghost use Rattle.std.specs.Prelude.{◌≡◌, ◌≢◌, ◌≤◌, ◌↔◌, IfOk, IfErr, IfSome, IfNone, IsErrOf, OnOk, OnErr};
ghost use Rattle.std.specs.Io.KnownBytes.{Appends};
ghost use Rattle.text_output.specs.Output.{AppendsFront};
ghost use Rattle.memory_image.specs.Sound.{IsSound};
ghost use Rattle.image_restore.specs.Resumed.{IsSoundWide, RefusesOffer};
ghost use Rattle.process_table.specs.State.{open_with};
ghost use Rattle.command_answers.specs.Faults.{IsFileFault};
ghost use Rattle.image_check.specs.Text.{verdict_text};
ghost use Rattle.image_check.specs.Told.{fails_nothing};
ghost use Rattle.tower_cli.specs.Images.{EndsScript};
ghost use Rattle.tower_cli.specs.Whole.{ChecksWhole, EndsCheckWhole, EndsIn, EndsScriptWhole, EndsWhole, IsBootFault, RestoresWhole, WritesWhole, offer_line};

use arrayvec::ArrayVec;
use command_answers::ToolFault;
use image_check::{Verdict, check_by_ref};
use image_restore::{WideRestoreFault, restore_wide};
use kernel_calls::{Core, Reply, WideFault};
use memory_image::NoMemory;
use script_run::{Block, ScriptFault, follow_script, push_reply_line};
use std::alloc::Global;
use std::io::{Read, Write};
use text_output::{WriteFailed, push_number, push_word, write_whole};
use wide_image::{StoreFault, WideImage, read_wide_image_from, write_core};

/// Makes the core of the snapshot that a file has, with its offers; None if it isn't sound.
///
/// ReadFailed if a read fails. NotImage, BadVersion, BadLength and BadField if the bytes are no snapshot, by the first
/// reason in the order in which they are read. NoMemory if there is none for the snapshot, its check or the core.
#[tactic(auto, using(command_answers::proofs::FileFaults::file_fault))]
pub fn restore_whole<F: Read>(alloc: Global, file: &mut F) -> Result<Option<Core>, ToolFault>
    ensures restored { IfOk result (RestoresWhole (F.remaining file.old)) }
    ensures fault { IfErr result (IsFileFault (F.remaining file.old)) }
{
    let image = match read_wide_image_from(alloc, file) {
        Ok(image) => image,
        Err(fault) => return Err(ToolFault::from(fault)),
    };
    match restore_wide(alloc, image) {
        Ok(core) => Ok(Some(core)),
        Err(WideRestoreFault::NotSound(_)) => Ok(None),
        Err(WideRestoreFault::BadOffer { .. }) => Ok(None),
        Err(WideRestoreFault::NoMemory) => Err(ToolFault::NoMemory),
    }
}

/// The first offer that the machine refuses, by its number, and the reply, of a snapshot that is sound apart from its
/// offers; None if it refuses none.
fn refused_offer(alloc: Global, image: WideImage) -> Result<Option<(u32, Reply)>, NoMemory>
    requires { IsSound image.image }
    ensures sound { IfOk result (λ found. IfNone found (IsSoundWide image)) }
    ensures refused { IfOk result (λ found. IfSome found (λ offer. RefusesOffer image offer.0 offer.1)) }
{
    image.within();
    match restore_wide(alloc, image) {
        Ok(core) => {
            core.stands();
            Ok(None)
        }
        Err(WideRestoreFault::BadOffer { number, reply }) => Ok(Some((number, reply))),
        Err(WideRestoreFault::NotSound(_)) => unreachable!(),
        Err(WideRestoreFault::NoMemory) => Err(NoMemory),
    }
}

/// The line of an offer that the machine refuses.
#[tactic(auto, unfolding(crate::specs::Whole::offer_line))]
fn offer_line(number: u32, reply: &Reply) -> Block
    ensures { result.items ≡ offer_line number reply.now }
{
    let mut line = ArrayVec::new();
    push_number(&mut line, "offer ", number);
    push_word(&mut line, " ");
    push_reply_line(&mut line, reply);
    line
}

/// Writes the line of an offer that the machine refuses.
fn write_offer<W: Write>(number: u32, reply: &Reply, writer: &mut W) -> Result<(), WriteFailed>
    ensures ok { OnOk result (Appends (W.contents writer.old) (W.contents writer.new) (offer_line number reply.now)) }
    ensures err { OnErr result (AppendsFront (W.contents writer.old) (W.contents writer.new)
        (offer_line number reply.now)) }
{
    write_whole(writer, offer_line(number, reply).as_slice())
}

/// Writes a verdict, and returns whether no clause fails.
///
/// WriteFailed if a write fails; a front of the text was written then.
fn tell_verdict<W: Write>(verdict: &Verdict, writer: &mut W) -> Result<bool, ToolFault>
    ensures told { IfOk result (λ sound. (sound ≡ fails_nothing verdict.now)
        × Appends (W.contents writer.old) (W.contents writer.new) (verdict_text verdict.now)) }
    ensures fault { IfErr result (λ fault. (fault ≡ ToolFault.WriteFailed)
        × AppendsFront (W.contents writer.old) (W.contents writer.new) (verdict_text verdict.now)) }
{
    match verdict.write_text(writer) {
        Ok(()) => Ok(verdict.sound()),
        Err(_) => Err(ToolFault::WriteFailed),
    }
}

/// Reads the snapshot that a file has, writes the verdict on it, and returns whether it is sound, offers included. If
/// only an offer is refused, it writes `offer`, the number of the first, and the reply.
///
/// The faults of `restore_whole`, with which nothing is written. WriteFailed comes last, and what was written is then a
/// front of that text, and not all of it.
#[tactic(auto, using(command_answers::proofs::FileFaults::file_fault))]
pub fn check_whole<F: Read, W: Write>(
    alloc: Global,
    file: &mut F,
    writer: &mut W,
) -> Result<bool, ToolFault>
    ensures told { IfOk result (λ sound. ChecksWhole (F.remaining file.old) sound (W.contents writer.old)
        (W.contents writer.new)) }
    ensures fault { IfErr result (λ fault. EndsCheckWhole (F.remaining file.old) fault (W.contents writer.old)
        (W.contents writer.new)) }
{
    let image = match read_wide_image_from(alloc, file) {
        Ok(image) => image,
        Err(fault) => return Err(ToolFault::from(fault)),
    };
    let Ok(verdict) = check_by_ref(alloc, &image.image()) else {
        return Err(ToolFault::NoMemory);
    };
    if !verdict.sound() {
        return tell_verdict(&verdict, writer);
    }
    let refused = match refused_offer(alloc, image) {
        Ok(refused) => refused,
        Err(_) => return Err(ToolFault::NoMemory),
    };
    let offer = match refused {
        Some(offer) => offer,
        None => return tell_verdict(&verdict, writer),
    };
    match write_offer(offer.0, &offer.1, writer) {
        Ok(()) => Ok(false),
        Err(_) => Err(ToolFault::WriteFailed),
    }
}

/// Runs a script on a core for the machine that it leaves. Replies are dropped.
///
/// The faults are those of `follow_script`.
fn after_script<R: Read>(alloc: Global, core: Core, reader: &mut R) -> Result<Core, ScriptFault>
    ensures ends { IfOk result (EndsIn core.state (R.remaining reader.old)) }
    ensures fault { IfErr result (λ fault. EndsScript core.state fault (R.remaining reader.old)
        (R.remaining reader.new)) }
    ensures size { IfErr result (λ fault. fault ≢ ScriptFault.BadSize) }
{
    let after = follow_script(alloc, core, reader)?;
    Ok(after)
}

/// Runs a script on a core, and writes the snapshot of the machine that it leaves, in place of replies: a machine of
/// any size with its pending offers.
///
/// The faults are those of `run_script`, except BadSize. NoMemory comes also after the script, if there is none for the
/// list of offers. WriteFailed comes if the snapshot can't be written: a prefix of it was written then.
pub fn write_resumed_whole<R: Read, W: Write>(
    alloc: Global,
    core: Core,
    reader: &mut R,
    writer: &mut W,
) -> Result<(), ScriptFault>
    ensures image { OnOk result (WritesWhole core.state (R.remaining reader.old) (W.contents writer.old)
        (W.contents writer.new)) }
    ensures fault { IfErr result (λ fault. EndsWhole core.state fault (R.remaining reader.old) (R.remaining reader.new)
        (W.contents writer.old) (W.contents writer.new)) }
    ensures size { IfErr result (λ fault. fault ≢ ScriptFault.BadSize) }
{
    let after = after_script(alloc, core, reader)?;
    match write_core(alloc, &after, writer) {
        Ok(()) => Ok(()),
        Err(StoreFault::NoMemory) => Err(ScriptFault::NoMemory),
        Err(StoreFault::WriteFailed) => Err(ScriptFault::WriteFailed),
    }
}

/// A machine of so many frames, 16 to 1,048,576.
///
/// BadWideSize for another number of frames, else NoMemory if there is none for them.
fn booted(alloc: Global, frames: u32) -> Result<Core, ToolFault>
    ensures opening { IfOk result (λ core. core.state ≡ open_with frames) }
    ensures size { IsErrOf result ToolFault.BadWideSize ↔ (16 ≤ frames → frames ≤ 1048576 → ⊥) }
    ensures fault { IfErr result IsBootFault }
{
    match Core::boot_wide(alloc, frames) {
        Ok(core) => Ok(core),
        Err(WideFault::BadSize) => Err(ToolFault::BadWideSize),
        Err(WideFault::NoMemory) => Err(ToolFault::NoMemory),
    }
}

/// Runs a script on a freshly booted machine of so many frames, 16 to 1,048,576. It writes the snapshot of the machine
/// that the script leaves, with its pending offers, in place of replies.
///
/// BadWideSize for another number of frames. The other faults are those of `write_resumed_whole`; NoMemory comes also if
/// there is none for the frames. Before the script ends, nothing is written.
pub fn write_script_whole<R: Read, W: Write>(
    alloc: Global,
    reader: &mut R,
    writer: &mut W,
    frames: u32,
) -> Result<(), ToolFault>
    ensures size { IsErrOf result ToolFault.BadWideSize ↔ (16 ≤ frames → frames ≤ 1048576 → ⊥) }
    ensures image { OnOk result (WritesWhole (open_with frames) (R.remaining reader.old) (W.contents writer.old)
        (W.contents writer.new)) }
    ensures fault { IfErr result (λ fault. EndsScriptWhole (open_with frames) fault (R.remaining reader.old)
        (R.remaining reader.new) (W.contents writer.old) (W.contents writer.new)) }
{
    let core = match booted(alloc, frames) {
        Ok(core) => core,
        Err(fault) => return Err(fault),
    };
    match write_resumed_whole(alloc, core, reader, writer) {
        Ok(()) => Ok(()),
        Err(fault) => Err(ToolFault::from(fault)),
    }
}
