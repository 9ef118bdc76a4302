//! The lines of an image's text, apart from those of its frames.

ghost use Rattle.std.specs.Prelude.{◌≡◌, ◌+◌, ◌*◌, ◌-◌, ◌≤◌, ◌<◌, ◌^◌, ◌%◌, ◌++◌, [], ◌∷◌, length, replicate, Some, codes, decimal};
ghost use Rattle.std.specs.Char.{digit_char};
ghost use Rattle.arrayvec.specs.ArrayVec.{array_vec_len};
ghost use Rattle.memory_image.specs.Image.{role_at};
ghost use Rattle.image_map.specs.Text.{letter_if, flags, five_digits, holders, holders_text, place, run_line, more_line, marks, used_marks, given_marks, bar, bar_line, process_line, format_words, image_line};

use crate::formats::Format;
use crate::frames::frames_with;
use crate::page_flags::{is_lazy_word, lets_write};
use crate::runs::Run;
use alloc_table::Role;
use arrayvec::ArrayVec;
use image_check::{ImageRef, Process};
use page_words::{Frame, Page, TableWord};
use text_output::{push_number, push_word};

/// Room for the longest line.
const ROOM: usize = 256;

/// A line of the text.
pub(crate) type Line = ArrayVec<u8, ROOM>;

/// How many marks a bar has.
const MARKS: u32 = 40;

// ---- Runs of pages

/// The lowest hexadecimal digit of a number.
fn last_digit(n: u32) -> u8
    ensures { result ≡ digit_char (n % 16) }
{
    let digit = (n % 16) as u8;
    if digit < 10 {
        b'0' + digit
    } else {
        b'a' - 10 + digit
    }
}

/// Puts the number of a page behind a line, in five hexadecimal digits.
#[tactic(auto, unfolding(crate::specs::Text::five_digits))]
fn push_page_number(line: &mut Line, page: Page)
    requires { array_vec_len line.old + 5 ≤ 256 }
    ensures items { line.new.items ≡ line.old.items ++ five_digits page }
    ensures len { array_vec_len line.new ≡ array_vec_len line.old + 5 }
{
    let digits = [
        last_digit(page.0 >> 16),
        last_digit(page.0 >> 12),
        last_digit(page.0 >> 8),
        last_digit(page.0 >> 4),
        last_digit(page.0),
    ];
    line.try_extend_from_slice(&digits).unwrap();
}

/// A letter where it is so, and else `-`.
fn letter_if(holds: bool, letter: u8) -> u8
    ensures { result ≡ letter_if holds letter }
{
    if holds { letter } else { b'-' }
}

/// Puts the five flags of a page behind a line.
fn push_flags(line: &mut Line, version: u32, word: u32)
    requires { array_vec_len line.old + 5 ≤ 256 }
    ensures items { line.new.items ≡ line.old.items ++ flags version word }
    ensures len { array_vec_len line.new ≡ array_vec_len line.old + 5 }
{
    let entry = TableWord::read(word);
    let flags = [
        letter_if(entry.user(), b'r'),
        letter_if(lets_write(version, word), b'w'),
        letter_if(entry.may(), b'm'),
        letter_if(entry.accessed(), b'a'),
        letter_if(entry.dirty(), b'd'),
    ];
    line.try_extend_from_slice(&flags).unwrap();
}

/// How many slots hold a page, by its role.
pub(crate) fn holders(role: Option<Role>) -> u32
    ensures { result ≡ holders role }
{
    match role {
        Some(Role::Page { count }) => count,
        Some(Role::Reserved) => 0,
        Some(Role::Free) => 0,
        Some(Role::Directory { .. }) => 0,
        Some(Role::Table { .. }) => 0,
        None => 0,
    }
}

/// Puts the number of holders behind a line, where there are several.
fn push_holders(line: &mut Line, holders: u32)
    requires { array_vec_len line.old + 19 ≤ 256 }
    ensures items { line.new.items ≡ line.old.items ++ holders_text holders }
    ensures len { array_vec_len line.new ≤ array_vec_len line.old + 19 }
{
    if holders > 1 {
        push_number(line, " holders ", holders);
    }
}

/// Appends where a page is to a line: it is lazy, or has a frame, which may have several holders.
fn push_place(line: &mut Line, image: &ImageRef<'_>, word: u32)
    requires { array_vec_len line.old + 40 ≤ 256 }
    ensures items { line.new.items ≡ line.old.items ++ place image.now word }
    ensures len { array_vec_len line.new ≤ array_vec_len line.old + 40 }
{
    if is_lazy_word(image.version(), word) {
        push_word(line, " lazy");
        return;
    }
    let frame = TableWord::read(word).frame();
    push_number(line, " frame ", frame.0);
    push_holders(line, holders(image.role(frame)));
}

/// The line of a run.
#[tactic(auto, unfolding(crate::specs::Text::run_line))]
pub(crate) fn run_line(image: &ImageRef<'_>, run: &Run) -> Line
    ensures { result.items ≡ run_line image.now run.now }
{
    let mut line = ArrayVec::new();
    push_word(&mut line, "  ");
    push_page_number(&mut line, run.first);
    push_word(&mut line, "000-");
    push_page_number(&mut line, run.last);
    push_word(&mut line, "fff ");
    push_flags(&mut line, image.version(), run.word);
    push_place(&mut line, image, run.word);
    line.push(b'\n');
    line
}

/// The line of runs that are not listed, where there are some.
#[tactic(auto, unfolding(crate::specs::Text::more_line))]
pub(crate) fn more_line(runs: u32) -> Line
    ensures { result.items ≡ more_line runs }
{
    let mut line = ArrayVec::new();
    if runs > 0 {
        push_number(&mut line, "  runs left out ", runs);
        line.push(b'\n');
    }
    line
}

// ---- Processes

/// How many of a bar's marks a number has of a quota, one more where they aren't whole.
fn marks(n: u32, quota: u32) -> u64
    ensures { result ≡ marks n quota }
{
    if quota == 0 {
        return 0;
    }
    let quota = u64::from(quota);
    (40 * u64::from(n) + (quota - 1)) / quota
}

/// The marks of what a process uses, at most 40.
pub(crate) fn used_marks(process: &Process) -> u32
    ensures value { result ≡ used_marks process.now }
    ensures bound { result ≤ 40 }
{
    marks(process.used, process.quota).min(40) as u32
}

/// The marks of what a process has given, as many as are left at most.
pub(crate) fn given_marks(process: &Process) -> u32
    ensures value { result ≡ given_marks process.now }
    ensures bound { result + used_marks process.now ≤ 40 }
{
    let left = MARKS - used_marks(process);
    marks(process.given, process.quota).min(u64::from(left)) as u32
}

/// Puts a mark behind a line, so many times.
fn push_marks(line: &mut Line, mark: u8, count: u32)
    requires { array_vec_len line.old + count ≤ 256 }
    ensures items { line.new.items ≡ line.old.items ++ replicate count mark }
    ensures len { array_vec_len line.new ≡ array_vec_len line.old + count }
{
    for place in 0..count {
        line.push(mark);
    }
}

/// The line of a process's bar: what it uses, has given and has left of its quota.
#[tactic(auto, unfolding(crate::specs::Text::bar_line))]
pub(crate) fn bar_line(process: &Process) -> Line
    ensures { result.items ≡ bar_line process.now }
{
    let used = used_marks(process);
    let given = given_marks(process);
    let mut line = ArrayVec::new();
    push_word(&mut line, "  [");
    push_marks(&mut line, b'#', used);
    push_marks(&mut line, b'g', given);
    push_marks(&mut line, b'.', MARKS - used - given);
    push_word(&mut line, "]");
    line.push(b'\n');
    line
}

/// The line of a live process.
#[tactic(auto, unfolding(crate::specs::Text::process_line))]
pub(crate) fn process_line(number: u32, process: &Process) -> Line
    ensures { result.items ≡ process_line number process.now }
{
    let mut line = ArrayVec::new();
    push_number(&mut line, "process ", number);
    push_number(&mut line, " parent ", u32::from(process.parent.number()));
    push_number(&mut line, " quota ", process.quota);
    push_number(&mut line, " used ", process.used);
    push_number(&mut line, " given ", process.given);
    let room = process
        .quota
        .saturating_sub(process.used)
        .saturating_sub(process.given);
    push_number(&mut line, " room ", room);
    line.push(b'\n');
    line
}

// ---- The image

/// Puts what a file of this format has behind a line.
fn push_format(line: &mut Line, format: Format)
    requires { array_vec_len line.old + 24 ≤ 256 }
    ensures items { line.new.items ≡ line.old.items ++ format_words format }
    ensures len { array_vec_len line.new ≤ array_vec_len line.old + 24 }
{
    match format {
        Format::Image(version) => push_number(line, "image version ", version),
        Format::Snapshot => push_word(line, "snapshot"),
    }
}

/// The line of the image: the format of its file, and how many frames have each letter.
#[tactic(auto, unfolding(crate::specs::Text::image_line))]
pub(crate) fn image_line(format: Format, image: &ImageRef<'_>) -> Line
    ensures { result.items ≡ image_line format image.now }
{
    let mut line = ArrayVec::new();
    push_format(&mut line, format);
    push_number(&mut line, " frames ", image.frames());
    push_number(&mut line, " reserved ", frames_with(image, b'#'));
    push_number(&mut line, " free ", frames_with(image, b'.'));
    push_number(&mut line, " directory ", frames_with(image, b'D'));
    push_number(&mut line, " table ", frames_with(image, b'T'));
    push_number(&mut line, " page ", frames_with(image, b'P'));
    push_number(&mut line, " shared ", frames_with(image, b'S'));
    line.push(b'\n');
    line
}
