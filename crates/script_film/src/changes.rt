//! What differs between two images.

ghost use Rattle.std.specs.Prelude.{◌≡◌, ◌<◌, ◌++◌, Some, OnOk};
ghost use Rattle.std.specs.Option.{option_map};
ghost use Rattle.script_film.specs.Changes.{role_change, role_changes, word_change, frame_changes, word_changes, process_change, process_changes, changes};

use crate::rows::{push_process_row, push_role_row, push_word_row};
use crate::seen::{process_in, role_in, same_process, same_role, word_in};
use memory_image::Image;
use page_words::Pid;
use std::alloc::AllocError;

/// Puts the row of a frame behind the text, where its role changed.
fn push_role_change(
    text: &mut Vec<u8>,
    before: Option<&Image>,
    after: &Image,
    frame: u32,
) -> Result<(), AllocError>
    ensures { OnOk result (text.new.items ≡ text.old.items ++ role_change
        (option_map (λ i. i.now) before.entry) after.now frame) }
{
    let was = role_in(before, frame);
    let is = role_in(Some(after), frame);
    if same_role(&was, &is) {
        return Ok(());
    }
    push_role_row(text, frame, &was, &is)
}

/// Puts a row behind the text for each frame whose role changed.
fn push_role_changes(
    text: &mut Vec<u8>,
    before: Option<&Image>,
    after: &Image,
) -> Result<(), AllocError>
    ensures { OnOk result (text.new.items ≡ text.old.items ++ role_changes
        (option_map (λ i. i.now) before.entry) after.now) }
{
    for frame in 0..after.frames() {
        push_role_change(text, before, after, frame)?;
    }
    Ok(())
}

/// Puts the row of a word behind the text, where it changed.
fn push_word_change(
    text: &mut Vec<u8>,
    before: Option<&Image>,
    after: &Image,
    frame: u32,
    index: u32,
) -> Result<(), AllocError>
    requires { index < 1024 }
    ensures { OnOk result (text.new.items ≡ text.old.items ++ word_change
        (option_map (λ i. i.now) before.entry) after.now frame index) }
{
    let was = word_in(before, frame, index);
    let is = word_in(Some(after), frame, index);
    if was == is {
        return Ok(());
    }
    push_word_row(text, frame, index, was, is)
}

/// Puts a row behind the text for each word of a frame that changed.
fn push_frame_changes(
    text: &mut Vec<u8>,
    before: Option<&Image>,
    after: &Image,
    frame: u32,
) -> Result<(), AllocError>
    ensures { OnOk result (text.new.items ≡ text.old.items ++ frame_changes
        (option_map (λ i. i.now) before.entry) after.now frame) }
{
    for index in 0..1024 {
        push_word_change(text, before, after, frame, index)?;
    }
    Ok(())
}

/// Puts a row behind the text for each word that changed.
fn push_word_changes(
    text: &mut Vec<u8>,
    before: Option<&Image>,
    after: &Image,
) -> Result<(), AllocError>
    ensures { OnOk result (text.new.items ≡ text.old.items ++ word_changes
        (option_map (λ i. i.now) before.entry) after.now) }
{
    for frame in 0..after.frames() {
        push_frame_changes(text, before, after, frame)?;
    }
    Ok(())
}

/// The process of a number below 64.
fn pid_of(number: u8) -> Pid
    requires { number < 64 }
    ensures { result ≡ number }
{
    Pid::new(number).unwrap()
}

/// Puts the row of a process behind the text, where it changed.
fn push_process_change(
    text: &mut Vec<u8>,
    before: Option<&Image>,
    after: &Image,
    number: u8,
) -> Result<(), AllocError>
    requires { number < 64 }
    ensures { OnOk result (text.new.items ≡ text.old.items ++ process_change
        (option_map (λ i. i.now) before.entry) after.now number) }
{
    let pid = pid_of(number);
    let was = process_in(before, pid);
    let is = process_in(Some(after), pid);
    if same_process(&was, &is) {
        return Ok(());
    }
    push_process_row(text, u32::from(number), &was, &is)
}

/// Puts a row behind the text for each process that changed.
fn push_process_changes(
    text: &mut Vec<u8>,
    before: Option<&Image>,
    after: &Image,
) -> Result<(), AllocError>
    ensures { OnOk result (text.new.items ≡ text.old.items ++ process_changes
        (option_map (λ i. i.now) before.entry) after.now) }
{
    for number in 0..64 {
        push_process_change(text, before, after, number)?;
    }
    Ok(())
}

/// Puts a row behind the text for each difference of two images, of which the first may be that of nothing.
#[tactic(auto, unfolding(crate::specs::Changes::changes))]
pub(crate) fn push_changes(
    text: &mut Vec<u8>,
    before: Option<&Image>,
    after: &Image,
) -> Result<(), AllocError>
    ensures { OnOk result (text.new.items ≡ text.old.items ++ changes
        (option_map (λ i. i.now) before.entry) after.now) }
{
    push_role_changes(text, before, after)?;
    push_word_changes(text, before, after)?;
    push_process_changes(text, before, after)
}
