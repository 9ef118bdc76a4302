//! The rows of a film's data.

ghost use Rattle.std.specs.Prelude.{◌≡◌, ◌+◌, ◌≤◌, ◌<◌, ◌++◌, [], ◌∷◌, length, OnOk, codes, decimal};
ghost use Rattle.std.specs.List.{flat_map};
ghost use Rattle.std.specs.Char.{digit_char};
ghost use Rattle.arrayvec.specs.ArrayVec.{array_vec_len};
ghost use Rattle.script_film.specs.Rows.{is_plain, escaped, line_row, reply_row, role_text, role_row, word_row, process_text, process_row, frames_row, end_text, end_row};

use crate::ends::End;
use alloc_table::Role;
use arrayvec::ArrayVec;
use kernel_calls::Reply;
use memory_image::Process;
use script_run::{Block, push_reply_line};
use std::alloc::AllocError;
use text_output::{push_number, push_word};

/// Room for the longest row that isn't a line of the script.
const ROOM: usize = 256;

/// A row.
type Row = ArrayVec<u8, ROOM>;

// ---- A line of the script

/// Whether a byte stands as it is.
fn is_plain(byte: u8) -> bool
    ensures { result ≡ is_plain byte }
{
    32 <= byte && byte < 127 && byte != b'<' && byte != b'\\'
}

/// A hexadecimal digit.
fn digit_char(digit: u8) -> u8
    requires { digit < 16 }
    ensures { result ≡ digit_char digit }
{
    if digit < 10 {
        b'0' + digit
    } else {
        b'a' - 10 + digit
    }
}

/// Puts a byte behind the text: as it is, or as a backslash and two digits.
fn push_byte(text: &mut Vec<u8>, byte: u8) -> Result<(), AllocError>
    ensures { OnOk result (text.new.items ≡ text.old.items ++ escaped byte) }
{
    if is_plain(byte) {
        text.extend_from_slice(&[byte])
    } else {
        text.extend_from_slice(&[b'\\', digit_char(byte / 16), digit_char(byte % 16)])
    }
}

/// Appends bytes to the text.
fn push_bytes(text: &mut Vec<u8>, bytes: &[u8]) -> Result<(), AllocError>
    ensures { OnOk result (text.new.items ≡ text.old.items ++ flat_map escaped bytes.now) }
{
    for byte in bytes {
        push_byte(text, *byte)?;
    }
    Ok(())
}

/// Puts a line of the script behind the text.
#[tactic(auto, unfolding(crate::specs::Rows::line_row))]
pub(crate) fn push_line(text: &mut Vec<u8>, bytes: &[u8]) -> Result<(), AllocError>
    ensures { OnOk result (text.new.items ≡ text.old.items ++ line_row bytes.now) }
{
    text.extend_from_slice(b"line ")?;
    push_bytes(text, bytes)?;
    text.extend_from_slice(b"\n")
}

// ---- Replies and changes

/// The row of a reply.
#[tactic(auto, unfolding(crate::specs::Rows::reply_row))]
pub(crate) fn push_reply(text: &mut Vec<u8>, reply: &Reply) -> Result<(), AllocError>
    ensures { OnOk result (text.new.items ≡ text.old.items ++ reply_row reply.now) }
{
    let mut row: Block = ArrayVec::new();
    push_word(&mut row, "reply ");
    push_reply_line(&mut row, reply);
    text.extend_from_slice(row.as_slice())
}

/// Puts what a frame serves behind a row.
fn push_role(row: &mut Row, role: &Role)
    requires { array_vec_len row.old + 32 ≤ 256 }
    ensures items { row.new.items ≡ row.old.items ++ role_text role.now }
    ensures len { array_vec_len row.new ≤ array_vec_len row.old + 32 }
{
    match role {
        Role::Reserved => push_word(row, "R"),
        Role::Free => push_word(row, "F"),
        Role::Directory { pid } => push_number(row, "D", u32::from(pid.number())),
        Role::Table { pid, slot } => {
            push_number(row, "T", u32::from(pid.number()));
            push_number(row, ".", *slot);
        }
        Role::Page { count } => push_number(row, "P", *count),
    }
}

/// The row of a frame whose role changed.
#[tactic(auto, unfolding(crate::specs::Rows::role_row))]
fn role_row(frame: u32, before: &Role, after: &Role) -> Row
    ensures { result.items ≡ role_row frame before.now after.now }
{
    let mut row = ArrayVec::new();
    push_number(&mut row, "role ", frame);
    push_word(&mut row, " ");
    push_role(&mut row, before);
    push_word(&mut row, " ");
    push_role(&mut row, after);
    row.push(b'\n');
    row
}

/// Puts the row of a frame whose role changed behind the text.
pub(crate) fn push_role_row(
    text: &mut Vec<u8>,
    frame: u32,
    before: &Role,
    after: &Role,
) -> Result<(), AllocError>
    ensures { OnOk result (text.new.items ≡ text.old.items ++ role_row frame before.now after.now) }
{
    text.extend_from_slice(role_row(frame, before, after).as_slice())
}

/// The row of a word that changed.
#[tactic(auto, unfolding(crate::specs::Rows::word_row))]
fn word_row(frame: u32, index: u32, before: u32, after: u32) -> Row
    ensures { result.items ≡ word_row frame index before after }
{
    let mut row = ArrayVec::new();
    push_number(&mut row, "word ", frame);
    push_number(&mut row, " ", index);
    push_number(&mut row, " ", before);
    push_number(&mut row, " ", after);
    row.push(b'\n');
    row
}

/// Puts the row of a word that changed behind the text.
pub(crate) fn push_word_row(
    text: &mut Vec<u8>,
    frame: u32,
    index: u32,
    before: u32,
    after: u32,
) -> Result<(), AllocError>
    ensures { OnOk result (text.new.items ≡ text.old.items ++ word_row frame index before after) }
{
    text.extend_from_slice(word_row(frame, index, before, after).as_slice())
}

/// Puts what a process has behind a row.
fn push_process(row: &mut Row, process: &Option<Process>)
    requires { array_vec_len row.old + 80 ≤ 256 }
    ensures items { row.new.items ≡ row.old.items ++ process_text process.now }
    ensures len { array_vec_len row.new ≤ array_vec_len row.old + 80 }
{
    match process {
        None => push_word(row, "-"),
        Some(process) => {
            push_number(row, "", u32::from(process.parent.number()));
            push_number(row, ",", process.quota);
            push_number(row, ",", process.used);
            push_number(row, ",", process.given);
            push_number(row, ",", process.directory.0);
        }
    }
}

/// The row of a process that changed.
#[tactic(auto, unfolding(crate::specs::Rows::process_row))]
fn process_row(number: u32, before: &Option<Process>, after: &Option<Process>) -> Row
    ensures { result.items ≡ process_row number before.now after.now }
{
    let mut row = ArrayVec::new();
    push_number(&mut row, "process ", number);
    push_word(&mut row, " ");
    push_process(&mut row, before);
    push_word(&mut row, " ");
    push_process(&mut row, after);
    row.push(b'\n');
    row
}

/// Puts the row of a process that changed behind the text.
pub(crate) fn push_process_row(
    text: &mut Vec<u8>,
    number: u32,
    before: &Option<Process>,
    after: &Option<Process>,
) -> Result<(), AllocError>
    ensures { OnOk result (text.new.items ≡ text.old.items ++ process_row number before.now after.now) }
{
    text.extend_from_slice(process_row(number, before, after).as_slice())
}

// ---- The film

/// The row of the number of frames.
#[tactic(auto, unfolding(crate::specs::Rows::frames_row))]
pub(crate) fn frames_row(frames: u32) -> Row
    ensures { result.items ≡ frames_row frames }
{
    let mut row = ArrayVec::new();
    push_number(&mut row, "frames ", frames);
    row.push(b'\n');
    row
}

/// Puts how a film ends behind a row.
fn push_end(row: &mut Row, end: End)
    requires { array_vec_len row.old + 32 ≤ 256 }
    ensures items { row.new.items ≡ row.old.items ++ end_text end }
    ensures len { array_vec_len row.new ≤ array_vec_len row.old + 32 }
{
    match end {
        End::Whole => push_word(row, "whole"),
        End::Malformed { line } => push_number(row, "malformed ", line),
        End::Cut => push_word(row, "cut"),
    }
}

/// The row of the end.
#[tactic(auto, unfolding(crate::specs::Rows::end_row))]
pub(crate) fn end_row(end: End) -> Row
    ensures { result.items ≡ end_row end }
{
    let mut row = ArrayVec::new();
    push_word(&mut row, "end ");
    push_end(&mut row, end);
    row.push(b'\n');
    row
}
