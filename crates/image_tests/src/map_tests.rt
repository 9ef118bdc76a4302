//! Maps of images, as text and as pictures: of small ones, of damaged ones, and of 4,096 frames.

use crate::common::{add, image_after};
use crate::comparing::{same, same_bytes};
use crate::damaged_tests::{Damage, damaged, damages, frames_of, image_bytes, lines_of};
use crate::images::{place_of, put, record_of, word};
use crate::worked_tests::groups;
use command_answers::ToolFault;
use map_jobs::{Form, draw_bytes};
use script_examples::Worked;
use std::alloc::Global;
use std::process::Abort;

/// A page that was stored to, lazy ones after it, a child that holds the page too, and a child of that.
const FAMILY: &str =
    "0 0 store 40000000 4 1\n0 0 map 40001 rw\n0 0 map 40002 rw\n0 0 map 40003 rw\n0 0 map 40005 ro\n0 0 load 40003000 1\n0 0 spawn 5\n0 0 offer 40000 1 ro\n1 1 accept 0 40000 403ff\n1 1 spawn 1\n";

/// A page that three processes hold.
const THREE: &str =
    "0 0 store 40000000 4 1\n0 0 spawn 4\n0 0 spawn 4\n0 0 offer 40000 1 rw\n0 0 offer 40000 2 rw\n1 1 accept 0 40000 40000\n2 2 accept 0 40000 40000\n";

const HEADING: &str = "frames # reserved . free D directory T table P page S shared\n";

/// An image's map, and whether it is sound.
fn drawn(alloc: Global, form: Form, bytes: &[u8]) -> Result<(Vec<u8>, bool), ToolFault> {
    let mut map = Vec::new(alloc);
    let sound = draw_bytes(alloc, form, bytes, &mut map)?;
    Ok((map, sound))
}

/// An image's map as text, and whether the image is sound.
fn text_of<R: AllocGlobal + Abort>(rt: &R, bytes: &[u8]) -> (Vec<u8>, bool) {
    drawn(rt.alloc(), Form::Text, bytes)
        .ok()
        .expect(rt, "a map as text")
}

/// An image's map as a picture, and whether the image is sound.
fn picture_of<R: AllocGlobal + Abort>(rt: &R, bytes: &[u8]) -> (Vec<u8>, bool) {
    drawn(rt.alloc(), Form::Picture, bytes)
        .ok()
        .expect(rt, "a map as a picture")
}

/// The letter of a frame, by its record.
fn letter_of(bytes: &[u8], frame: u32) -> &'static str {
    let at = record_of(frame);
    match (word(bytes, at), word(bytes, at.wrapping_add(12))) {
        (0, _) => "#",
        (1, _) => ".",
        (2, _) => "D",
        (3, _) => "T",
        (_, count) if count > 1 => "S",
        _ => "P",
    }
}

/// Adds the number of a frame that begins a row.
fn add_number<R: AllocGlobal + Abort>(rt: &R, rows: &mut Vec<u8>, frame: u32) {
    if frame % 64 == 0 {
        let number = format!(in rt.alloc(); "{frame:>4} ")
            .ok()
            .expect(rt, "memory for a number");
        add(rt, rows, number.as_bytes());
    }
}

/// Ends the row behind a frame that is the last of 64, or of all.
fn add_end(rt: &impl Abort, rows: &mut Vec<u8>, frame: u32, frames: u32) {
    if frame % 64 == 63 || frame.wrapping_add(1) == frames {
        add(rt, rows, b"\n");
    }
}

/// Adds the rows of so many frames, by the records of an image.
fn add_rows<R: AllocGlobal + Abort>(rt: &R, rows: &mut Vec<u8>, bytes: &[u8], frames: u32) {
    for frame in 0..frames {
        add_number(rt, rows, frame);
        add(rt, rows, letter_of(bytes, frame).as_bytes());
        add_end(rt, rows, frame, frames);
    }
}

/// The rows of frames of an image, and lines behind them.
fn end_of<R: AllocGlobal + Abort>(rt: &R, bytes: &[u8], lines: &[u8]) -> Vec<u8> {
    let mut end = Vec::new(rt.alloc());
    add(rt, &mut end, HEADING.as_bytes());
    add_rows(rt, &mut end, bytes, word(bytes, 8));
    add(rt, &mut end, lines);
    end
}

/// Whether the map of an image as text ends in the rows of frames and these lines, and says sound or not.
fn ends_in<R: AllocGlobal + Abort>(rt: &R, bytes: &[u8], lines: &[u8], sound: bool) -> bool {
    let (text, is_sound) = text_of(rt, bytes);
    text.ends_with(&end_of(rt, bytes, lines)) && is_sound == sound
}

/// Whether a part follows so many bytes of a text.
fn goes_on(text: &[u8], place: usize, part: &[u8]) -> bool {
    match text.get(place..) {
        Some(rest) => rest.starts_with(part),
        None => false,
    }
}

/// At how many places a text has a part.
pub(crate) fn times(text: &[u8], part: &[u8]) -> u64 {
    let mut count = 0u64;
    for place in 0..text.len() {
        count = count.wrapping_add(u64::from(goes_on(text, place, part)));
    }
    count
}

/// The frame of the first page of process 0.
fn first_page(image: &[u8]) -> u32 {
    let directory = word(image, 32);
    let table = word(image, place_of(directory, 256)) / 4096;
    word(image, place_of(table, 0)) / 4096
}

/// What the map of the family lists, whose shared page is in this frame.
fn family_of<R: AllocGlobal + Abort>(rt: &R, page: u32) -> String {
    format!(in rt.alloc();
        "image version 2 frames 16 reserved 1 free 9 directory 3 table 2 page 0 shared 1
process 0 parent 0 quota 15 used 7 given 5 room 3
  [###################gggggggggggggg.......]
  40000000-40000fff rwmad frame {page} holders 2
  40001000-40002fff rwm-- lazy
  40003000-40003fff rwma- lazy
  40005000-40005fff r-m-- lazy
process 1 parent 0 quota 5 used 3 given 1 room 1
  [########################gggggggg........]
  403ff000-403fffff r---- frame {page} holders 2
process 2 parent 1 quota 1 used 1 given 0 room 0
  [########################################]
"
    )
    .ok()
    .expect(rt, "memory for lines")
}

/// The map of the family's image as text.
fn family_text<R: AllocGlobal + Abort>(rt: &R, image: &[u8]) -> Vec<u8> {
    let mut text = Vec::new(rt.alloc());
    add(rt, &mut text, family_of(rt, first_page(image)).as_bytes());
    add(rt, &mut text, &end_of(rt, image, b"sound\n"));
    text
}

/// An image has this map as text, which is sound.
fn check_text<R: AllocGlobal + Abort>(rt: &R, image: &[u8], expected: &[u8]) {
    let (text, sound) = text_of(rt, image);
    same_bytes(rt, &text, expected);
    assert!(rt; sound);
}

#[test]
fn a_family_is_listed(rt: HostRuntime) {
    let image = image_after(&rt, FAMILY, 16);
    check_text(&rt, &image, &family_text(&rt, &image));
}

/// The map of the image after a script ends in the rows of frames, and says that it is sound.
fn check_after<R: AllocGlobal + Abort>(rt: &R, worked: &Worked) {
    let image = image_after(rt, worked.script, worked.frames);
    assert!(rt; ends_in(rt, &image, b"sound\n", true), "{}", worked.name);
}

/// Checks the map after a worked script, unless the script has a malformed line.
fn check_worked<R: AllocGlobal + Abort>(rt: &R, worked: &Worked) {
    if worked.malformed.is_none() {
        check_after(rt, worked);
    }
}

fn check_scripts<R: AllocGlobal + Abort>(rt: &R, scripts: &[Worked]) {
    for worked in scripts {
        check_worked(rt, worked);
    }
}

fn check_groups<R: AllocGlobal + Abort>(rt: &R, groups: &[&[Worked]]) {
    for group in groups {
        check_scripts(rt, group);
    }
}

#[test]
fn maps_after_worked_scripts_end_in_sound(rt: HostRuntime) {
    check_groups(&rt, &groups());
}

/// Checks that the picture of a damaged image has as many marks as these lines have frames and processes.
fn check_marks<R: AllocGlobal + Abort>(rt: &R, damage: &Damage, bytes: &[u8], lines: &[u8]) {
    let (picture, sound) = picture_of(rt, bytes);
    let place = damage.place;
    let frames = times(&picture, b"; fails F");
    let marks = (place, frames, times(&picture, b">fails P"), sound);
    let told = (
        place,
        times(lines, b"frame "),
        times(lines, b"process "),
        false,
    );
    same(rt, &marks, &told);
}

/// Checks that the map of a damaged image as text ends with these lines on what fails.
fn check_lines<R: AllocGlobal + Abort>(rt: &R, damage: &Damage, bytes: &[u8], lines: &[u8]) {
    let place = damage.place;
    assert!(rt; ends_in(rt, bytes, lines, false), "word at {place}");
}

/// Checks that the maps of a damaged image show what fails.
fn check_told<R: AllocGlobal + Abort>(rt: &R, damage: &Damage) {
    let bytes = damaged(rt, damage);
    let lines = lines_of(rt, damage);
    check_lines(rt, damage, &bytes, &lines);
    check_marks(rt, damage, &bytes, &lines);
}

fn check_damages<R: AllocGlobal + Abort>(rt: &R, damages: &[Damage]) {
    for damage in damages {
        check_told(rt, damage);
    }
}

#[test]
fn maps_of_damaged_images_tell_what_fails(rt: HostRuntime) {
    check_damages(&rt, &damages(&frames_of(&image_bytes(&rt))));
}

/// Fills a frame with words of lazy pages, of which no two make one run.
fn fill_table(bytes: &mut [u8], frame: u32) {
    for index in 0..1024 {
        put(bytes, place_of(frame, index), 0x605 | (index % 2 * 32));
    }
}

/// Makes a frame the table of process 0 at a slot.
fn make_table(bytes: &mut [u8], directory: u32, frame: u32, slot: u32) {
    put(bytes, record_of(frame), 3);
    put(bytes, record_of(frame).wrapping_add(8), slot);
    put(
        bytes,
        place_of(directory, slot),
        frame.wrapping_mul(4096) | 7,
    );
    fill_table(bytes, frame);
}

/// Makes frames 3 to 15 tables of process 0, at slots from 256 on.
fn make_tables(bytes: &mut [u8], directory: u32) {
    for frame in 3..16u32 {
        make_table(bytes, directory, frame, frame.wrapping_add(253));
    }
}

/// An image of 16 frames, of which all but three are tables of process 0, at slots from 256 on, with no two
/// pages of one run.
fn tables_everywhere<R: AllocGlobal + Abort>(rt: &R) -> Vec<u8> {
    let mut bytes = image_after(rt, "", 16);
    let directory = word(&bytes, 32);
    make_tables(&mut bytes, directory);
    bytes
}

/// Checks that the map of an image as text has a part at so many places, and is not sound.
fn check_times<R: AllocGlobal + Abort>(rt: &R, bytes: &[u8], part: &[u8], expected: u64) {
    let (text, sound) = text_of(rt, bytes);
    same(rt, &(times(&text, part), sound), &(expected, false));
}

/// The map of an image as text has fewer bytes than 64 frames.
fn check_short<R: AllocGlobal + Abort>(rt: &R, bytes: &[u8]) {
    assert!(rt; text_of(rt, bytes).0.len() < 64 * 4096);
}

#[test]
fn a_small_damaged_image_has_a_short_text(rt: HostRuntime) {
    let bytes = tables_everywhere(&rt);
    check_times(&rt, &bytes, b" lazy\n", 13 * 16);
    check_times(&rt, &bytes, b"\n  runs left out 1008\n", 13);
    check_short(&rt, &bytes);
}

/// Links one table in all slots of a directory.
fn link_everywhere(bytes: &mut [u8], directory: u32, link: u32) {
    for slot in 257..960 {
        put(bytes, place_of(directory, slot), link);
    }
}

/// An image of 16 frames in which all slots of process 0 have one table.
fn one_table_everywhere<R: AllocGlobal + Abort>(rt: &R) -> Vec<u8> {
    let mut bytes = image_after(rt, "0 0 map 40000 ro\n", 16);
    let directory = word(&bytes, 32);
    let link = word(&bytes, place_of(directory, 256));
    link_everywhere(&mut bytes, directory, link);
    bytes
}

#[test]
fn a_table_of_all_slots_is_listed_once(rt: HostRuntime) {
    let bytes = one_table_everywhere(&rt);
    check_times(&rt, &bytes, b" lazy\n", 1);
    check_times(&rt, &bytes, b"process 0 P3\n", 1);
}

/// The map of an image as text ends in the rows of its frames, and says that it is sound.
fn check_sound<R: AllocGlobal + Abort>(rt: &R, image: &[u8]) {
    assert!(rt; ends_in(rt, image, b"sound\n", true));
}

/// The picture of an image is whole, and has so many frames.
fn check_picture<R: AllocGlobal + Abort>(rt: &R, image: &[u8], frames: u64) {
    let (picture, _) = picture_of(rt, image);
    let found = (
        times(&picture, b"<title>frame "),
        picture.ends_with(b"</svg>\n"),
    );
    same(rt, &found, &(frames, true));
}

/// The picture of the image after a script has this text once.
fn check_once<R: AllocGlobal + Abort>(rt: &R, script: &str, part: &[u8]) {
    let (picture, sound) = picture_of(rt, &image_after(rt, script, 16));
    same(rt, &(times(&picture, part), sound), &(1, true));
}

#[test]
fn a_picture_names_who_maps_a_page_and_counts_lazy_pages(rt: HostRuntime) {
    check_once(&rt, FAMILY, b"processes 0 and 1");
    check_once(&rt, FAMILY, b">lazy 4<");
    check_once(&rt, THREE, b"processes 0, 1 and others");
}

#[test]
fn maps_of_4096_frames_have_each_frame(rt: HostRuntime) {
    let image = image_after(&rt, FAMILY, 4096);
    check_sound(&rt, &image);
    check_picture(&rt, &image, 4096);
}
