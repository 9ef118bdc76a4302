//! Snapshots that are read from a reader of std, one piece at a time.

ghost use Rattle.std.specs.Prelude.{◌≡◌, ◌+◌, ◌<◌, ◌≤◌, ◌⊎◌, ◌++◌, [], Some, IfOk, IfErr, IfSome, OnOk, length, take};
ghost use Rattle.std.specs.Io.KnownBytes.{Consumes, IsAtEnd};
ghost use Rattle.wide_image.specs.Pieces.{so_far, wanted, left};
ghost use Rattle.wide_image.specs.Streams.{ReadsOn, EncodesAll, IsShort, IsOfLength, IsRefusedBehind, HasMore, IsForWant, NamesBehind};
ghost use Rattle.wide_image.specs.Wide as wide;
ghost use Rattle.wide_image.specs.Wide.{HasWideFields, text};

use crate::faults::WideImageFault;
use crate::images::WideImage;
use crate::reader::WideReader;
use std::alloc::Global;
use std::io;
use std::io::Read;
use thiserror::Error;

/// Why no snapshot was read from a reader.
#[derive(Clone, Copy, Debug, PartialEq, Eq, Error)]
pub enum WideReadFault {
    /// A read answered an error.
    #[error("read failed")]
    ReadFailed,
    /// The bytes are no snapshot, or there was no memory for it.
    #[error("{0}")]
    NotRead(WideImageFault),
}

/// Fills a buffer from its front on, as far as the reader has bytes. Returns how many there were. What the buffer holds
/// after these is the reader's to say: a read may write to all of the buffer that it is given.
///
/// ReadFailed if a read answers an error other than an interruption. No clause says then how many bytes were read, or
/// what the buffer holds.
pub fn fill<R: Read>(reader: &mut R, buffer: &mut [u8]) -> Result<usize, WideReadFault>
    ensures length { length buffer.new ≡ length buffer.old }
    ensures most { IfOk result (λ count. count ≤ length buffer.new) }
    ensures bytes { IfOk result (λ count. Consumes (R.remaining reader.old) (R.remaining reader.new)
        (take count buffer.new)) }
    ensures end { IfOk result (λ count. count < length buffer.new → IsAtEnd (R.remaining reader.new)) }
    ensures fault { IfErr result (λ fault. fault ≡ WideReadFault.ReadFailed) }
{
    let mut filled = 0;
    for _ in 0..u64::MAX {
        if filled >= buffer.len() {
            return Ok(filled);
        }
        match reader.read(&mut buffer[filled..]) {
            Ok(0) => return Ok(filled),
            Ok(count) => filled += count,
            Err(error) => {
                if error.kind() != io::ErrorKind::Interrupted {
                    return Err(WideReadFault::ReadFailed);
                }
            }
        }
    }
    Err(WideReadFault::ReadFailed)
}

/// Fills a buffer whole.
///
/// ReadFailed if a read does. Otherwise BadLength if the reader has fewer bytes.
fn fill_whole<R: Read>(reader: &mut R, piece: &mut [u8]) -> Result<(), WideReadFault>
    ensures length { length piece.new ≡ length piece.old }
    ensures bytes { OnOk result (Consumes (R.remaining reader.old) (R.remaining reader.new) piece.new) }
    ensures short { IfErr result (IsShort (R.remaining reader.old) (length piece.old)) }
    ensures fault { IfErr result IsOfLength }
{
    match fill(reader, piece) {
        Ok(read) => {
            if read < piece.len() {
                return Err(WideReadFault::NotRead(WideImageFault::BadLength));
            }
            Ok(())
        }
        Err(fault) => Err(fault),
    }
}

/// Reads the next piece of a snapshot.
///
/// ReadFailed if a read does. Otherwise BadLength if the reader has fewer bytes, and the faults of `WideReader::take`.
fn take_piece<R: Read>(image: &mut WideReader, reader: &mut R) -> Result<(), WideReadFault>
    requires { 0 < wanted image.old }
    ensures read { OnOk result (ReadsOn image.old image.new (R.remaining reader.old) (R.remaining reader.new)) }
    ensures left { OnOk result (left image.old ≡ left image.new + 1) }
    ensures refused { IfErr result (IsRefusedBehind (so_far image.old) (R.remaining reader.old)) }
    ensures named { IfErr result (NamesBehind (so_far image.old) (R.remaining reader.old)) }
{
    image.within();
    let mut bytes = [0; 4116];
    let wanted = image.wants();
    let piece = &mut bytes[..wanted];
    if let Err(fault) = fill_whole(reader, piece) {
        return Err(fault);
    }
    match image.take(piece) {
        Ok(()) => Ok(()),
        Err(fault) => Err(WideReadFault::NotRead(fault)),
    }
}

/// Begins a snapshot by a reader's first 1,556 bytes.
///
/// ReadFailed if a read does. Otherwise the faults of `WideReader::begin`.
fn begin_from<R: Read>(alloc: Global, reader: &mut R) -> Result<WideReader, WideReadFault>
    ensures begun { IfOk result (λ image. Consumes (R.remaining reader.old) (R.remaining reader.new) (so_far image)) }
    ensures refused { IfErr result (IsRefusedBehind [] (R.remaining reader.old)) }
    ensures named { IfErr result (NamesBehind [] (R.remaining reader.old)) }
{
    let mut front = [0; 1556];
    let read = fill(reader, &mut front)?;
    match WideReader::begin(alloc, &front[..read]) {
        Ok(image) => Ok(image),
        Err(fault) => Err(WideReadFault::NotRead(fault)),
    }
}

/// That a reader has no byte left.
///
/// ReadFailed if the read does, and BadLength if there is one.
fn end<R: Read>(reader: &mut R) -> Result<(), WideReadFault>
    ensures ended { OnOk result (IsAtEnd (R.remaining reader.old)) }
    ensures more { IfErr result (HasMore (R.remaining reader.old)) }
    ensures fault { IfErr result IsOfLength }
{
    let mut byte = [0; 1];
    match fill(reader, &mut byte)? {
        0 => Ok(()),
        _ => Err(WideReadFault::NotRead(WideImageFault::BadLength)),
    }
}

/// Reads a snapshot to the reader's end, piece by piece.
fn read_pieces<R: Read>(alloc: Global, reader: &mut R) -> Result<WideImage, WideReadFault>
    ensures encoded { IfOk result (EncodesAll (R.remaining reader.old)) }
    ensures refused { IfErr result (IsRefusedBehind [] (R.remaining reader.old)) }
    ensures named { IfErr result (NamesBehind [] (R.remaining reader.old)) }
{
    let mut image = match begin_from(alloc, reader) {
        Ok(image) => image,
        Err(fault) => return Err(fault),
    };
    while image.wants() > 0 {
        if let Err(fault) = take_piece(&mut image, reader) {
            return Err(fault);
        }
    }
    image.within();
    if let Err(fault) = end(reader) {
        return Err(fault);
    }
    Ok(image.finish())
}

/// Reads a snapshot to the reader's end, piece by piece: no copy of all bytes is kept. Frames that aren't stored are
/// free, and hold zeros.
///
/// ReadFailed if a read does. The other faults are NotRead. NoMemory: there is no memory for the snapshot. Otherwise it
/// is the first reason against the bytes, in the order in which they are read. So BadLength comes only where they end
/// too early or too late. No fault but ReadFailed and NoMemory comes for bytes that encode a snapshot.
pub fn read_wide_image_from<R: Read>(
    alloc: Global,
    reader: &mut R,
) -> Result<WideImage, WideReadFault>
    ensures encoded { IfOk result (EncodesAll (R.remaining reader.old)) }
    ensures refused { IfErr result (IsRefusedBehind [] (R.remaining reader.old)) }
    ensures named { IfErr result (NamesBehind [] (R.remaining reader.old)) }
    ensures read { (image : wide.WideImage) → HasWideFields image → R.remaining reader.old ≡ Some (text image)
        → IfErr result IsForWant }
{
    read_pieces(alloc, reader)
}
