//! A wide core has no image of its own, and is checked where its memory lies.

use crate::common::{booted, check_fault_text, process, store};
use crate::comparing::same;
use image_check::{ImageRef, Verdict, check_by_ref};
use kernel_calls::Core;
use memory_image::{CoreImageFault, Image, processes_of};
use page_words::{Frame, Vaddr};
use std::process::Abort;

/// How many frames the wide core has.
const FRAMES: u32 = 5000;

/// A wide core whose root has stored to so many pages.
fn filled<R: AllocGlobal + Abort>(rt: &R, pages: u16) -> Core {
    let core = Core::boot_wide(rt.alloc(), FRAMES);
    let mut core = core.ok().expect(rt, "a wide core");
    for page in 0..pages {
        store(
            &mut core,
            process(rt, 0),
            Vaddr(0x4000_0000 + 4096 * u32::from(page)),
            7,
        );
    }
    core
}

/// The verdict on a core where it lies.
fn verdict_in<R: AllocGlobal + Abort>(rt: &R, core: &Core) -> Verdict {
    let processes = processes_of(core);
    let told = check_by_ref(rt.alloc(), &ImageRef::of_core(core, &processes));
    told.ok().expect(rt, "a verdict")
}

/// The fault of an image of a core.
fn fault_of<R: AllocGlobal + Abort>(rt: &R, core: &Core) -> Option<CoreImageFault> {
    Image::of(rt.alloc(), core).err()
}

#[test]
fn a_wide_core_is_checked_where_it_lies(rt: HostRuntime) {
    let core = filled(&rt, 4200);
    let told = verdict_in(&rt, &core);
    same(&rt, &told.sound(), &true);
    same(&rt, &told.frame(Frame(FRAMES - 1)), &None);
    same(
        &rt,
        &core.container(process(&rt, 0)).map(|it| it.used),
        &Some(4206),
    );
}

#[test]
fn only_a_core_of_few_enough_frames_has_an_image(rt: HostRuntime) {
    let core = booted(&rt, 4096);
    same(&rt, &fault_of(&rt, &core), &None);
    same(&rt, &verdict_in(&rt, &core).sound(), &true);
    let wide = filled(&rt, 0);
    same(
        &rt,
        &fault_of(&rt, &wide),
        &Some(CoreImageFault::TooManyFrames),
    );
}

#[test]
fn faults_of_an_image_of_a_core_have_texts(rt: HostRuntime) {
    check_fault_text(&rt, &CoreImageFault::TooManyFrames, "more than 4096 frames");
    check_fault_text(&rt, &CoreImageFault::NoMemory, "out of memory");
}
