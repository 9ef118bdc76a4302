//! The bytes of the file that a command line names.

ghost use Rattle.std.specs.Prelude.{◌≡◌, ◌≤◌, ◌⊎◌, Some, IfOk, IfErr, length};
ghost use Rattle.std.specs.Fmt.{option_append};
ghost use Rattle.command_answers.specs.Files.{IsContent, IsRead, SaysWhole, says_whole};

use crate::faults::ToolFault;
use arrayvec::ArrayVec;
use std::alloc::Global;
use std::io;
use std::io::Read;
use wide_image::{begins_snapshot, fill};

/// One byte more than an image of version 1 or 2 of 4,096 frames has.
const FILE_BYTES: u64 = 16_844_301;

/// The bytes of a file, of which no more are read than one more than the largest image of version 1 or 2 has.
///
/// NoMemory where there is no memory for them; ReadFailed where a read answers another error.
pub fn bytes_of<F: Read + Drop>(alloc: Global, file: F) -> Result<Vec<u8>, ToolFault>
    ensures read { IfOk result (λ bytes. IsRead (F.remaining file) bytes.items) }
    ensures fault { IfErr result (λ fault. (fault ≡ ToolFault.NoMemory) ⊎ (fault ≡ ToolFault.ReadFailed)) }
{
    let mut bytes = Vec::new(alloc);
    match file.take(FILE_BYTES).read_to_end(&mut bytes) {
        Ok(_) => Ok(bytes),
        Err(error) if error.kind() == io::ErrorKind::OutOfMemory => Err(ToolFault::NoMemory),
        Err(_) => Err(ToolFault::ReadFailed),
    }
}

/// Returns whether bytes begin as a snapshot does, of any version: by the first four.
pub fn says_whole(bytes: &[u8]) -> bool
    ensures { result ≡ says_whole bytes.now }
{
    begins_snapshot(bytes)
}

/// These bytes, at most four.
fn kept(bytes: &[u8]) -> ArrayVec<u8, 4>
    requires { length bytes.now ≤ 4 }
    ensures { result.items ≡ bytes.now }
{
    let mut front = ArrayVec::new();
    front.try_extend_from_slice(bytes).unwrap();
    front
}

/// Reads the first bytes of a file: four, or all if there are fewer. They and what the file has left are its content,
/// and whether that begins as a snapshot does is for them to say.
///
/// ReadFailed if a read answers an error.
pub fn front_of<F: Read>(file: &mut F) -> Result<ArrayVec<u8, 4>, ToolFault>
    ensures content { IfOk result (λ front. IsContent (F.remaining file.old)
        (option_append (Some front.items) (F.remaining file.new))) }
    ensures says { IfOk result (λ front. SaysWhole (says_whole front.items)
        (option_append (Some front.items) (F.remaining file.new))) }
    ensures fault { IfErr result (λ fault. fault ≡ ToolFault.ReadFailed) }
{
    let mut bytes = [0; 4];
    let read = fill(file, &mut bytes)?;
    Ok(kept(&bytes[..read]))
}
