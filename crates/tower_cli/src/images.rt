//! The commands on images: the image of the state that a script ends in, the check of one, and a core made of one.

ghost use Rattle.std.specs.Prelude.{◌≡◌, ◌≢◌, ◌≤◌, ◌↔◌, IfOk, IfErr, IsErrOf, OnOk};
ghost use Rattle.memory_image.specs.Sound.{StandsFor};
ghost use Rattle.process_table.specs.State.{open_with};
ghost use Rattle.tower_cli.specs.Images.{Checks, EndsCheck, EndsImage, EndsRestore, EndsScript, Restores, ShowsEnd, WritesImage};

use command_answers::ToolFault;
use image_check::check;
use image_restore::{RestoreFault, restore};
use kernel_calls::Core;
use memory_image::{Image, read_image, write_image};
use script_run::{ScriptFault, follow_script};
use std::alloc::Global;
use std::io::{Read, Write};

/// The image of the core that a script left.
///
/// NoMemory if there is no memory for it.
fn last_image(alloc: Global, core: &Core) -> Result<Image, ScriptFault>
    ensures stands { IfOk result (λ image. StandsFor image core.now.state) }
    ensures fault { IfErr result (λ fault. fault ≡ ScriptFault.NoMemory) }
{
    match Image::of(alloc, core) {
        Ok(image) => Ok(image),
        Err(_) => Err(ScriptFault::NoMemory),
    }
}

/// Runs a script for its last state, of which it gives the image. Replies are dropped.
///
/// The faults are those of `run_script`. NoMemory also comes if there is no memory for the image.
fn script_image<R: Read>(alloc: Global, reader: &mut R, frames: u32) -> Result<Image, ScriptFault>
    ensures size { IsErrOf result ScriptFault.BadSize ↔ (16 ≤ frames → frames ≤ 4096 → ⊥) }
    ensures shows { IfOk result (ShowsEnd (open_with frames) (R.remaining reader.old)) }
    ensures fault { IfErr result (λ fault. EndsScript (open_with frames) fault (R.remaining reader.old)
        (R.remaining reader.new)) }
{
    let core = Core::boot(alloc, frames)?;
    resumed_image(alloc, core, reader)
}

/// Runs a script on a core for its last state, as `script_image` does on one that is booted.
fn resumed_image<R: Read>(alloc: Global, core: Core, reader: &mut R) -> Result<Image, ScriptFault>
    ensures shows { IfOk result (ShowsEnd core.state (R.remaining reader.old)) }
    ensures fault { IfErr result (λ fault. EndsScript core.state fault (R.remaining reader.old)
        (R.remaining reader.new)) }
    ensures size { IfErr result (λ fault. fault ≢ ScriptFault.BadSize) }
{
    let core = follow_script(alloc, core, reader)?;
    last_image(alloc, &core)
}

/// Runs a script on a freshly booted machine of so many frames, and writes the image of the state that it
/// ends in, in place of replies.
///
/// The faults are those of `run_script`, with which nothing is written. NoMemory comes also after the script, if there
/// is no memory for the image. WriteFailed comes if the image can't be written: a prefix of it was written then.
pub fn write_script_image<R: Read, W: Write>(
    alloc: Global,
    reader: &mut R,
    writer: &mut W,
    frames: u32,
) -> Result<(), ScriptFault>
    ensures size { IsErrOf result ScriptFault.BadSize ↔ (16 ≤ frames → frames ≤ 4096 → ⊥) }
    ensures image { OnOk result (WritesImage (open_with frames) (R.remaining reader.old) (W.contents writer.old)
        (W.contents writer.new)) }
    ensures fault { IfErr result (λ fault. EndsImage (open_with frames) fault (R.remaining reader.old)
        (R.remaining reader.new) (W.contents writer.old) (W.contents writer.new)) }
{
    let image = script_image(alloc, reader, frames)?;
    image.within();
    write_image(&image, writer)?;
    Ok(())
}

/// Runs a script on a core, and writes the image of the state that it ends in, in place of replies.
///
/// The faults are those of `write_script_image`, except BadSize.
pub fn write_resumed_image<R: Read, W: Write>(
    alloc: Global,
    core: Core,
    reader: &mut R,
    writer: &mut W,
) -> Result<(), ScriptFault>
    ensures image { OnOk result (WritesImage core.state (R.remaining reader.old) (W.contents writer.old)
        (W.contents writer.new)) }
    ensures fault { IfErr result (λ fault. EndsImage core.state fault (R.remaining reader.old) (R.remaining reader.new)
        (W.contents writer.old) (W.contents writer.new)) }
    ensures size { IfErr result (λ fault. fault ≢ ScriptFault.BadSize) }
{
    let image = resumed_image(alloc, core, reader)?;
    image.within();
    write_image(&image, writer)?;
    Ok(())
}

/// Makes a core of the image in bytes; None if that is of version 2 and not sound.
///
/// NotImage, BadVersion, BadLength and BadField if the bytes are no image, by the first reason against them. BadVersion
/// also if the image is of version 1. NoMemory if there is none for the image, its check or the core.
pub fn restore_bytes(alloc: Global, bytes: &[u8]) -> Result<Option<Core>, ToolFault>
    ensures restored { IfOk result (Restores bytes.now) }
    ensures fault { IfErr result (EndsRestore bytes.now) }
{
    let image = match read_image(alloc, bytes) {
        Ok(image) => image,
        Err(fault) => return Err(ToolFault::from(fault)),
    };
    match restore(alloc, image) {
        Ok(core) => Ok(Some(core)),
        Err(RestoreFault::OldWords) => Err(ToolFault::BadVersion),
        Err(RestoreFault::NotSound(_)) => Ok(None),
        Err(RestoreFault::NoMemory) => Err(ToolFault::NoMemory),
    }
}

/// Reads an image, writes the verdict on it, and returns whether it is sound.
///
/// NotImage, BadVersion, BadLength and BadField where the bytes are no image, by the first reason against
/// them; NoMemory where there is none for the image or its check: nothing is written then. WriteFailed
/// comes last, and what was written is then a front of the verdict's text.
pub fn check_bytes<W: Write>(alloc: Global, bytes: &[u8], writer: &mut W) -> Result<bool, ToolFault>
    ensures told { IfOk result (λ sound. Checks bytes.now sound (W.contents writer.old) (W.contents writer.new)) }
    ensures fault { IfErr result (λ fault. EndsCheck bytes.now fault (W.contents writer.old) (W.contents writer.new)) }
{
    let image = match read_image(alloc, bytes) {
        Ok(image) => image,
        Err(fault) => return Err(ToolFault::from(fault)),
    };
    let Ok(verdict) = check(alloc, &image) else {
        return Err(ToolFault::NoMemory);
    };
    match verdict.write_text(writer) {
        Ok(()) => Ok(verdict.sound()),
        Err(_) => Err(ToolFault::WriteFailed),
    }
}
