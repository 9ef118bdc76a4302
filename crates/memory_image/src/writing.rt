//! Writing an image.

ghost use Rattle.std.specs.Prelude.{◌≡◌, ◌+◌, ◌≤◌, ◌++◌, length, OnOk, OnErr};
ghost use Rattle.std.specs.List.{flat_map};
ghost use Rattle.std.specs.Io.KnownBytes.{Appends};
ghost use Rattle.arrayvec.specs.ArrayVec.{array_vec_len};
ghost use Rattle.memory_image.specs.Image.{frames};
ghost use Rattle.text_output.specs.Output.{AppendsFront};
ghost use Rattle.memory_image.specs.Spelling.{magic, number, process_bytes, role_bytes, spelling};

use crate::images::Image;
use crate::processes::Process;
use alloc_table::Role;
use arrayvec::ArrayVec;
use std::io::Write;
use text_output::{WriteFailed, write_whole};

/// The four bytes that an image begins with, as a number.
const MAGIC: u32 = 0x4932_436d;

/// The bytes of up to six numbers.
pub type Record = ArrayVec<u8, 24>;

/// Puts the bytes of a number behind a record, the lowest first.
fn push_number(bytes: &mut Record, n: u32)
    requires { array_vec_len bytes.old + 4 ≤ 24 }
    ensures items { bytes.new.items ≡ bytes.old.items ++ number n }
    ensures len { array_vec_len bytes.new ≡ array_vec_len bytes.old + 4 }
{
    bytes.try_extend_from_slice(&n.to_le_bytes()).unwrap();
}

/// The bytes of numbers, one after the other.
pub fn record_of(numbers: &[u32]) -> Record
    requires { length numbers.now ≤ 6 }
    ensures { result.items ≡ flat_map number numbers.now }
{
    let mut record = ArrayVec::new();
    for n in numbers {
        push_number(&mut record, *n);
    }
    record
}

/// The numbers that an image begins with.
fn first_numbers(version: u32, frames: u32) -> [u32; 3]
    ensures { flat_map number result ≡ magic ++ (number version ++ number frames) }
{
    [MAGIC, version, frames]
}

/// The numbers of the record of a process.
fn process_numbers(process: &Option<Process>) -> [u32; 6]
    ensures { flat_map number result ≡ process_bytes process.now }
{
    match process {
        Some(process) => [
            1,
            process.parent.number() as u32,
            process.quota,
            process.used,
            process.given,
            process.directory.0,
        ],
        None => [0; 6],
    }
}

/// The numbers of the record of a frame.
pub fn role_numbers(role: Role) -> [u32; 4]
    ensures { flat_map number result ≡ role_bytes role }
{
    match role {
        Role::Reserved => [0, 0, 0, 0],
        Role::Free => [1, 0, 0, 0],
        Role::Directory { pid } => [2, pid.number() as u32, 0, 0],
        Role::Table { pid, slot } => [3, pid.number() as u32, slot, 0],
        Role::Page { count } => [4, 0, 0, count],
    }
}

fn write_process<W: Write>(process: &Option<Process>, writer: &mut W) -> Result<(), WriteFailed>
    ensures ok { OnOk result (Appends (W.contents writer.old) (W.contents writer.new) (process_bytes process.now)) }
    ensures err { OnErr result (AppendsFront (W.contents writer.old) (W.contents writer.new)
        (process_bytes process.now)) }
{
    write_whole(writer, &record_of(&process_numbers(process)))
}

fn write_role<W: Write>(role: Role, writer: &mut W) -> Result<(), WriteFailed>
    ensures ok { OnOk result (Appends (W.contents writer.old) (W.contents writer.new) (role_bytes role)) }
    ensures err { OnErr result (AppendsFront (W.contents writer.old) (W.contents writer.new) (role_bytes role)) }
{
    write_whole(writer, &record_of(&role_numbers(role)))
}

/// Writes the records of processes, one after the other.
///
/// WriteFailed if a write fails; a front of them was written then.
pub fn write_processes<W: Write>(
    processes: &[Option<Process>],
    writer: &mut W,
) -> Result<(), WriteFailed>
    ensures ok { OnOk result (Appends (W.contents writer.old) (W.contents writer.new)
        (flat_map process_bytes processes.now)) }
    ensures err { OnErr result (AppendsFront (W.contents writer.old) (W.contents writer.new)
        (flat_map process_bytes processes.now)) }
{
    for place in 0..processes.len() {
        write_process(&processes[place], writer)?;
    }
    Ok(())
}

fn write_roles<W: Write>(roles: &[Role], writer: &mut W) -> Result<(), WriteFailed>
    ensures ok { OnOk result (Appends (W.contents writer.old) (W.contents writer.new) (flat_map role_bytes roles.now)) }
    ensures err { OnErr result (AppendsFront (W.contents writer.old) (W.contents writer.new)
        (flat_map role_bytes roles.now)) }
{
    for place in 0..roles.len() {
        write_role(roles[place], writer)?;
    }
    Ok(())
}

/// Writes what an image begins with: the four bytes, the version and the number of frames.
fn write_front<W: Write>(image: &Image, writer: &mut W) -> Result<(), WriteFailed>
    ensures ok { OnOk result (Appends (W.contents writer.old) (W.contents writer.new)
        (magic ++ (number image.now.version ++ number (frames image.now)))) }
    ensures err { OnErr result (AppendsFront (W.contents writer.old) (W.contents writer.new)
        (magic ++ (number image.now.version ++ number (frames image.now)))) }
{
    write_whole(
        writer,
        &record_of(&first_numbers(image.version(), image.frames())),
    )
}

/// Writes the bytes of an image, which `read_image` reads back.
///
/// WriteFailed where a write fails; what was written is then a front of them.
pub fn write_image<W: Write>(image: &Image, writer: &mut W) -> Result<(), WriteFailed>
    ensures ok { OnOk result (Appends (W.contents writer.old) (W.contents writer.new) (spelling image.now)) }
    ensures err { OnErr result (AppendsFront (W.contents writer.old) (W.contents writer.new) (spelling image.now)) }
{
    write_front(image, writer)?;
    write_processes(image.processes(), writer)?;
    write_roles(image.roles(), writer)?;
    write_whole(writer, image.bytes())
}
