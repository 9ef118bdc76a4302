//! Images of a kernel's memory, taken between the calls of its CPUs.

ghost use Rattle.std.specs.Prelude.{◌≡◌};

use crate::kernels::{
    answered, booted, check_length, closed, image_of, opened, process, put, same, store, taken,
};
use kernel_calls::{Core, Reply};
use locked_core::{Blank, Boot, Cpu, History, Kernel, Monitor, Name, OpenGate};
use memory_image::Image;
use page_words::Frame;
use std::marker::Brand;
use std::process::Abort;
use std::sync::Wait;

/// The image of the kernel after process 0 stored a number; the CPU keeps its calls.
fn stored<N: Name, R: Wait + Abort>(
    rt: &R,
    kernel: &Kernel<N, OpenGate>,
    cpu: &mut Cpu<N>,
    value: u32,
) -> Image {
    answered(rt, kernel, cpu, process(rt, 0), store(value), Reply::Done);
    let calls = cpu.calls();
    let image = image_of(rt, kernel, cpu);
    same(rt, &cpu.calls(), &calls);
    image
}

/// Whether the image has the core's bytes and roles.
fn shows(image: &Image, core: &Core) -> bool {
    let mut is_shown = image.bytes() == core.memory().bytes();
    for frame in 0..core.frames() {
        if image.role(Frame(frame)) != Some(core.role(Frame(frame))) {
            is_shown = false;
        }
    }
    is_shown
}

/// The image has as many frames as the memory that the kernel was closed with, and is of it or not.
fn check_shows<R: Abort>(rt: &R, image: &Image, history: &History, is_shown: bool) {
    let core = history.core();
    let found = (image.frames(), shows(image, core));
    same(rt, &found, &(core.frames(), is_shown));
}

/// By the image process 0 uses 3 frames.
fn check_used<R: Abort>(rt: &R, image: &Image) {
    let used = image.process(process(rt, 0)).map(|process| process.used);
    same(rt, &used, &Some(3));
}

fn check_no_monitors<N: Name, R: Abort>(rt: &R, monitors: &Vec<Monitor<N>>) {
    same(rt, &monitors.len(), &0);
}

/// An image before a store, and one after it: the second one is of the memory that the kernel is closed with.
fn before_and_after<N: Name, R: Wait + Abort>(rt: &R, blank: Blank<OpenGate>)
    requires { (blank.frames ≡ N.frames) × (blank.book ≡ N.book) }
{
    let Boot {
        kernel,
        mut cpus,
        monitors,
    } = opened::<N, OpenGate, R>(rt, blank);
    check_no_monitors(rt, &monitors);
    let mut cpu = taken(rt, &mut cpus);
    let early = stored(rt, &kernel, &mut cpu, 7);
    let late = stored(rt, &kernel, &mut cpu, 9);
    let history = closed(rt, kernel, put(rt, cpus, cpu));
    check_length(rt, &history, 2);
    check_shows(rt, &early, &history, false);
    check_shows(rt, &late, &history, true);
    check_used(rt, &late);
}

#[test]
fn a_snapshot_is_of_the_last_call(rt: HostRuntime) {
    before_and_after::<Brand, HostRuntime>(&rt, booted(&rt, 16, 1, 0, OpenGate));
}
