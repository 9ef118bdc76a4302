//! The frames of an image: the letter of each, and how many have one.

ghost use Rattle.std.specs.Prelude.{◌≡◌, ◌+◌, ◌-◌, ◌*◌, ◌/◌, ◌≤◌, ◌<◌, ◌++◌, ◌==◌, length, min};
ghost use Rattle.page_map.specs.Pages.{counted};
ghost use Rattle.arrayvec.specs.ArrayVec.{array_vec_len};
ghost use Rattle.memory_image.specs.Image.{frames, role_at};
ghost use Rattle.image_map.specs.Text.{letter, letters, frames_with, padding, wide_padding, is_wide, rows, row_length, margin_blanks, row_margin, row_letters, is_free_row, begins_stretch, free_rows, stretch_length, stretch_line, row_line, row_text};

use crate::lines::Line;
use alloc_table::Role;
use arrayvec::ArrayVec;
use image_check::ImageRef;
use page_words::Frame;
use text_output::{push_decimal, push_number, push_word};

/// How many frames a row has.
const ROW: u32 = 64;

/// The letter of a role.
pub(crate) fn letter(role: Option<Role>) -> u8
    ensures { result ≡ letter role }
{
    match role {
        Some(Role::Reserved) => b'#',
        Some(Role::Free) => b'.',
        Some(Role::Directory { .. }) => b'D',
        Some(Role::Table { .. }) => b'T',
        Some(Role::Page { count }) => { if count > 1 { b'S' } else { b'P' } }
        None => b' ',
    }
}

/// 1 where a frame has that letter, and else 0.
fn count_letter(image: &ImageRef<'_>, frame: u32, wanted: u8) -> u32
    ensures count { result ≡ counted (letter (role_at image.now frame) == wanted) }
    ensures bound { result ≤ 1 }
{
    if letter(image.role(Frame(frame))) == wanted {
        1
    } else {
        0
    }
}

/// How many frames have that letter.
pub(crate) fn frames_with(image: &ImageRef<'_>, wanted: u8) -> u32
    ensures { result ≡ frames_with image.now wanted }
{
    let mut count = 0;
    for frame in 0..image.frames() {
        count += count_letter(image, frame, wanted);
    }
    count
}

/// Puts the letters of so many frames behind a line, from a first one on.
fn push_letters(line: &mut Line, image: &ImageRef<'_>, first: u32, count: u32)
    requires room { array_vec_len line.old + count ≤ 256 }
    requires small { first + count ≤ 16777216 }
    ensures items { line.new.items ≡ line.old.items ++ letters image.now first count }
    ensures len { array_vec_len line.new ≡ array_vec_len line.old + count }
{
    for place in 0..count {
        line.push(letter(image.role(Frame(first + place))));
    }
}

/// The blanks before a number, so that it ends in the fourth column.
fn padding(n: u32) -> &'static str
    ensures value { result.now ≡ padding n }
    ensures short { length result.now ≤ 3 }
{
    if n < 10 {
        "   "
    } else if n < 100 {
        "  "
    } else if n < 1000 {
        " "
    } else {
        ""
    }
}

/// The blanks before a number, so that it ends in the seventh column.
fn wide_padding(n: u32) -> &'static str
    ensures value { result.now ≡ wide_padding n }
    ensures short { length result.now ≤ 6 }
{
    if n < 10 {
        "      "
    } else if n < 100 {
        "     "
    } else if n < 1000 {
        "    "
    } else if n < 10000 {
        "   "
    } else if n < 100000 {
        "  "
    } else if n < 1000000 {
        " "
    } else {
        ""
    }
}

/// Whether there are more frames than an image of version 1 or 2 can have.
pub(crate) fn is_wide(image: &ImageRef<'_>) -> bool
    ensures { result ≡ is_wide image.now }
{
    image.frames() > 4096
}

/// How many rows the frames fill, the last perhaps not whole.
pub(crate) fn row_count(image: &ImageRef<'_>) -> u32
    ensures rows { result ≡ rows image.now }
    ensures most { result ≤ 16384 }
{
    (image.frames() + 63) / ROW
}

/// How many frames a row has; none past the end.
pub(crate) fn row_length(image: &ImageRef<'_>, row: u32) -> u32
    requires { row ≤ 16384 }
    ensures count { result ≡ row_length image.now row }
    ensures most { result ≤ 64 }
{
    image.frames().saturating_sub(ROW * row).min(ROW)
}

/// The blanks before the number of a row's first frame.
fn margin_blanks(image: &ImageRef<'_>, first: u32) -> &'static str
    ensures value { result.now ≡ margin_blanks image.now first }
    ensures short { length result.now ≤ 6 }
{
    if is_wide(image) {
        wide_padding(first)
    } else {
        padding(first)
    }
}

/// Begins a line with the number of a row's first frame, and a blank.
#[tactic(auto, using(text_output::proofs::DecimalLemmas::long_decimal))]
fn row_margin(image: &ImageRef<'_>, row: u32) -> Line
    requires { row ≤ 16384 }
    ensures items { result.items ≡ row_margin image.now row }
    ensures short { array_vec_len result ≤ 32 }
{
    let mut line = ArrayVec::new();
    let first = ROW * row;
    push_word(&mut line, margin_blanks(image, first));
    push_decimal(&mut line, u64::from(first));
    line.push(b' ');
    line
}

/// The letters of the frames of a row.
fn row_letters(image: &ImageRef<'_>, row: u32) -> Line
    requires { row ≤ 16384 }
    ensures items { result.items ≡ row_letters image.now row }
{
    let mut line = ArrayVec::new();
    push_letters(&mut line, image, ROW * row, row_length(image, row));
    line
}

/// Whether all frames of a row are free.
pub(crate) fn is_free_row(image: &ImageRef<'_>, row: u32) -> bool
    requires { row ≤ 16384 }
    ensures { result ≡ is_free_row image.now row }
{
    row_letters(image, row)
        .as_slice()
        .iter()
        .all(|letter| *letter == b'.')
}

/// Whether a stretch of free rows begins with a row, if it is free.
pub(crate) fn begins_stretch(image: &ImageRef<'_>, row: u32) -> bool
    requires { row ≤ 16384 }
    ensures { result ≡ begins_stretch image.now row }
{
    row == 0 || !is_free_row(image, row - 1)
}

/// How many rows in sequence are free, from one on.
#[tactic(auto, using(crate::proofs::FreeRows::free_next, crate::proofs::FreeRows::free_stops, crate::proofs::FreeRows::free_ends))]
pub(crate) fn free_rows(image: &ImageRef<'_>, row: u32) -> u32
    ensures rows { result ≡ free_rows image.now row (rows image.now - row) }
    ensures most { result ≤ 16384 }
{
    let mut count = 0;
    for next in row..row_count(image) {
        if !is_free_row(image, next) {
            return count;
        }
        count += 1;
    }
    count
}

/// How many frames a stretch of so many free rows has, from one on.
pub(crate) fn stretch_length(image: &ImageRef<'_>, row: u32, count: u32) -> u32
    requires { (row ≤ 16384) × (count ≤ 16384) }
    ensures { result ≡ stretch_length image.now row count }
{
    image.frames().saturating_sub(ROW * row).min(ROW * count)
}

/// The line of a stretch of so many free rows, from one on.
#[tactic(auto, unfolding(crate::specs::Text::stretch_line))]
fn stretch_line(image: &ImageRef<'_>, row: u32, count: u32) -> Line
    requires { (row ≤ 16384) × (count ≤ 16384) }
    ensures { result.items ≡ stretch_line image.now row count }
{
    let mut line = row_margin(image, row);
    push_number(&mut line, "free ", stretch_length(image, row, count));
    line.push(b'\n');
    line
}

/// The line of a row of frames.
fn row_line(image: &ImageRef<'_>, row: u32) -> Line
    requires { row ≤ 16384 }
    ensures { result.items ≡ row_line image.now row }
{
    let mut line = row_margin(image, row);
    push_letters(&mut line, image, ROW * row, row_length(image, row));
    line.push(b'\n');
    line
}

/// The line that begins with a row: its own, or that of a stretch; no line where it is in a stretch that began before.
#[tactic(auto, unfolding(crate::specs::Text::row_text))]
pub(crate) fn row_text(image: &ImageRef<'_>, row: u32) -> Line
    requires { row ≤ 16384 }
    ensures { result.items ≡ row_text image.now row }
{
    if !is_wide(image) || !is_free_row(image, row) {
        row_line(image, row)
    } else if begins_stretch(image, row) {
        stretch_line(image, row, free_rows(image, row))
    } else {
        ArrayVec::new()
    }
}
