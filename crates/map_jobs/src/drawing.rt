//! An image drawn from its bytes, as text or as a picture.

ghost use Rattle.std.specs.Prelude.{◌≡◌, IfOk, IfErr, OnOk};
ghost use Rattle.image_check.specs.Told.{verdict_on};
ghost use Rattle.map_jobs.specs.Drawings.{Draws, DrawsWhole, EndsDrawing, EndsForm, EndsWhole, Shows};

use command_answers::ToolFault;
use image_check::{ImageRef, Verdict, check, check_by_ref, read_image};
use image_map::{Format, PictureFault, write_map, write_picture};
use std::alloc::Global;
use std::io::{Read, Write};
use wide_image::read_wide_image_from;

/// What an image is drawn as.
#[derive(Clone, Copy, Debug, PartialEq, Eq)]
pub enum Form {
    /// Lines of text.
    Text,
    /// A picture, as SVG.
    Picture,
}

/// Writes an image, of a file of this format, in a form.
fn write_form<W: Write>(
    alloc: Global,
    form: Form,
    format: Format,
    image: &ImageRef<'_>,
    verdict: &Verdict,
    writer: &mut W,
) -> Result<(), ToolFault>
    requires { verdict.now ≡ verdict_on image.now }
    ensures ok { OnOk result (Shows form format image.now (W.contents writer.old) (W.contents writer.new)) }
    ensures fault { IfErr result (λ fault. EndsForm form format image.now fault (W.contents writer.old)
        (W.contents writer.new)) }
{
    match form {
        Form::Text => match write_map(format, image, verdict, writer) {
            Ok(()) => Ok(()),
            Err(_) => Err(ToolFault::WriteFailed),
        },
        Form::Picture => match write_picture(alloc, format, image, verdict, writer) {
            Ok(()) => Ok(()),
            Err(PictureFault::NoMemory) => Err(ToolFault::NoMemory),
            Err(PictureFault::WriteFailed) => Err(ToolFault::WriteFailed),
        },
    }
}

/// Reads an image of version 1 or 2, draws it with the verdict of the check, and returns whether it is sound.
///
/// NotImage, BadVersion, BadLength and BadField where the bytes are no image, by the first reason against
/// them; NoMemory where there is none for the image, its check or its picture: nothing is written then. WriteFailed
/// comes last, and what was written is then, of a text, a front of it.
pub fn draw_bytes<W: Write>(
    alloc: Global,
    form: Form,
    bytes: &[u8],
    writer: &mut W,
) -> Result<bool, ToolFault>
    ensures drawn { IfOk result (λ sound. Draws form bytes.now sound (W.contents writer.old) (W.contents writer.new)) }
    ensures fault { IfErr result (λ fault. EndsDrawing form bytes.now fault (W.contents writer.old)
        (W.contents writer.new)) }
{
    let image = match read_image(alloc, bytes) {
        Ok(image) => image,
        Err(fault) => return Err(ToolFault::from(fault)),
    };
    let Ok(verdict) = check(alloc, &image) else {
        return Err(ToolFault::NoMemory);
    };
    let version = image.version();
    let format = Format::Image(version);
    match write_form(alloc, form, format, &image.by_ref(), &verdict, writer) {
        Ok(()) => Ok(verdict.sound()),
        Err(fault) => Err(fault),
    }
}

/// Reads the snapshot that a file has, piece by piece, and draws it with the verdict of the check. It returns whether
/// it is sound apart from its offers, which are neither drawn nor tested.
///
/// ReadFailed if a read fails. NotImage, BadVersion, BadLength and BadField where the bytes are no snapshot, by the
/// first reason in the order in which they are read. NoMemory where there is none for the snapshot, its check or its
/// picture. Nothing is written with any of them. WriteFailed comes last, as for `draw_bytes`.
#[tactic(auto, using(command_answers::proofs::FileFaults::file_fault))]
pub fn draw_whole<F: Read, W: Write>(
    alloc: Global,
    form: Form,
    file: &mut F,
    writer: &mut W,
) -> Result<bool, ToolFault>
    ensures drawn { IfOk result (λ sound. DrawsWhole form (F.remaining file.old) sound (W.contents writer.old)
        (W.contents writer.new)) }
    ensures fault { IfErr result (λ fault. EndsWhole form (F.remaining file.old) fault (W.contents writer.old)
        (W.contents writer.new)) }
{
    let image = match read_wide_image_from(alloc, file) {
        Ok(image) => image,
        Err(fault) => return Err(ToolFault::from(fault)),
    };
    let shown = image.image();
    let Ok(verdict) = check_by_ref(alloc, &shown) else {
        return Err(ToolFault::NoMemory);
    };
    match write_form(alloc, form, Format::Snapshot, &shown, &verdict, writer) {
        Ok(()) => Ok(verdict.sound()),
        Err(fault) => Err(fault),
    }
}
