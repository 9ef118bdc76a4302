//! Making the image of a core.

ghost use Rattle.std.specs.Prelude.{◌≡◌, ℕ, ◌<◌, ◌≤◌, ◌↔◌, Some, IfSome, IfOk, IsErrOf, length, slice_get, slice_index};
ghost use Rattle.memory_image.specs.Machine.{process_told, IsImageOf, IsToldWide, HasWord, HaveWords, ShowsProcesses};
ghost use Rattle.memory_image.specs.Sound.{StandsFor};

use crate::by_reference::ImageRef;
use crate::faults::CoreImageFault;
use crate::images::Image;
use crate::processes::Process;
use alloc_table::Role;
use kernel_calls::Core;
use page_words::{MAX_FRAMES, Pid};
use std::alloc::Global;

/// The version of the words of current kernels.
const VERSION: u32 = 2;

/// Returns what a core shows of a process.
fn process_of(core: &Core, pid: Pid) -> Option<Process>
    ensures told { result ≡ process_told core.now pid }
    ensures wide { IsToldWide core.now pid }
{
    let container = core.container(pid)?;
    let directory = core.directory(pid)?;
    Some(Process {
        parent: container.parent,
        quota: container.quota,
        used: container.used,
        given: container.given,
        directory,
    })
}

/// The process of a number below 64.
fn pid_of(number: u8) -> Pid
    requires { number < 64 }
    ensures { result ≡ number }
{
    Pid::new(number).unwrap()
}

/// Returns what a core shows of all 64 processes.
pub fn processes_of(core: &Core) -> [Option<Process>; 64]
    ensures { ShowsProcesses core.now result }
{
    let mut processes = [None; 64];
    for number in 0..64 {
        processes[number as usize] = process_of(core, pid_of(number));
    }
    processes
}

/// A page's count is a number of 32 bits. It computes nothing.
fn has_word(role: Role)
    ensures { HasWord role }
{
    let _ = role;
}

/// Each page's count is a number of 32 bits. It computes nothing.
fn have_words(roles: &[Role])
    ensures { HaveWords roles.now (length roles.now) }
{
    for place in 0..roles.len() {
        has_word(roles[place]);
    }
}

/// Each byte is less than 256. It computes nothing.
fn are_small(bytes: &[u8])
    ensures { (i : ℕ) → slice_index bytes.now i < 256 }
{
    let _ = bytes;
}

impl<'a> ImageRef<'a> {
    /// The image of a core where its parts lie, with the words of version 2. It is sound, and represents the core's
    /// state.
    pub fn of_core(core: &'a Core, processes: &'a [Option<Process>; 64]) -> ImageRef<'a>
        requires { ShowsProcesses core.now processes.now }
        ensures parts { result ≡ record {
          version = 2;
          processes = processes.now;
          roles = core.now.roles;
          bytes =
              core.now.bytes;
        } }
        ensures shows { IsImageOf core.now result }
        ensures stands { StandsFor result core.now.state }
    {
        core.stands();
        let roles = core.roles();
        let bytes = core.memory().bytes();
        have_words(roles);
        are_small(bytes);
        let _ = core.frames();
        let _ = core.memory().frames();
        ImageRef::of_parts(VERSION, processes, roles, bytes)
    }
}

/// What each frame of a core serves.
fn roles_of(alloc: Global, core: &Core) -> Option<Vec<Role>>
    ensures { IfSome result (λ roles. roles.items ≡ core.now.roles) }
{
    Vec::from_slice(alloc, core.roles()).ok()
}

/// All bytes of a core's memory.
fn bytes_of(alloc: Global, core: &Core) -> Option<Vec<u8>>
    ensures { IfSome result (λ bytes. bytes.items ≡ core.now.bytes) }
{
    Vec::from_slice(alloc, core.memory().bytes()).ok()
}

/// The image of a core of few enough frames.
fn image_of(alloc: Global, core: &Core) -> Option<Image>
    requires { length core.now.roles ≤ MAX_FRAMES }
    ensures { IfSome result (λ image. IsImageOf core.now image) }
{
    let processes = processes_of(core);
    ImageRef::of_core(core, &processes).within();
    let roles = roles_of(alloc, core)?;
    let bytes = bytes_of(alloc, core)?;
    Some(Image::with_parts(VERSION, processes, roles, bytes))
}

impl Image {
    /// Makes the image of a core, with the words of version 2. It is sound, and represents the core's state.
    ///
    /// TooManyFrames exactly if the core has more than 4,096 frames, which are the most of an image. Otherwise NoMemory
    /// if there is no memory for it.
    pub fn of(alloc: Global, core: &Core) -> Result<Image, CoreImageFault>
        ensures shows { IfOk result (λ image. IsImageOf core.now image) }
        ensures stands { IfOk result (λ image. StandsFor image core.now.state) }
        ensures many { IsErrOf result CoreImageFault.TooManyFrames ↔ (4096 < length core.now.roles) }
    {
        core.stands();
        if core.frames() > MAX_FRAMES {
            return Err(CoreImageFault::TooManyFrames);
        }
        match image_of(alloc, core) {
            Some(image) => Ok(image),
            None => Err(CoreImageFault::NoMemory),
        }
    }
}
