//! Images of the states that worked scripts end in.

use crate::comparing::{same, same_bytes};
use command_answers::ToolFault;
use script_examples::{Worked, alone, forks, processes, sharing};
use std::alloc::Global;
use std::process::Abort;
use tower_cli::{check_bytes, write_script_image};

/// The image of the state that a script ends in, written, read again and checked: its verdict's text.
fn verdict_after(alloc: Global, script: &str, frames: u32) -> Result<Vec<u8>, ToolFault> {
    let mut image = Vec::new(alloc);
    let mut reader = script.as_bytes();
    if write_script_image(alloc, &mut reader, &mut image, frames).is_err() {
        return Err(ToolFault::NotImage);
    }
    let mut text = Vec::new(alloc);
    check_bytes(alloc, image.as_slice(), &mut text)?;
    Ok(text)
}

/// A script with a malformed line gives no image.
fn check_malformed<R: AllocGlobal + Abort>(rt: &R, worked: &Worked) {
    let verdict = verdict_after(rt.alloc(), worked.script, worked.frames);
    let found = (worked.name, verdict.err());
    same(rt, &found, &(worked.name, Some(ToolFault::NotImage)));
}

/// The image after a script is sound.
fn check_sound<R: AllocGlobal + Abort>(rt: &R, worked: &Worked) {
    let verdict = verdict_after(rt.alloc(), worked.script, worked.frames);
    let text = verdict.ok().expect(rt, worked.name);
    same_bytes(rt, &text, b"sound\n");
}

fn check_worked<R: AllocGlobal + Abort>(rt: &R, worked: &Worked) {
    if worked.malformed.is_some() {
        check_malformed(rt, worked);
    } else {
        check_sound(rt, worked);
    }
}

fn check_scripts<R: AllocGlobal + Abort>(rt: &R, scripts: &[Worked]) {
    for worked in scripts {
        check_worked(rt, worked);
    }
}

/// The four groups of worked scripts.
pub(crate) fn groups() -> [&'static [Worked]; 4] {
    [
        alone::SCRIPTS.as_slice(),
        forks::SCRIPTS.as_slice(),
        processes::SCRIPTS.as_slice(),
        sharing::SCRIPTS.as_slice(),
    ]
}

fn check_groups<R: AllocGlobal + Abort>(rt: &R, groups: &[&[Worked]]) {
    for group in groups {
        check_scripts(rt, group);
    }
}

#[test]
fn images_after_worked_scripts_are_sound(rt: HostRuntime) {
    check_groups(&rt, &groups());
}
