//! The snapshot of a core, and the core of a snapshot.

ghost use Rattle.std.specs.Prelude.{◌≡◌, ◌<◌, ◌≤◌, [], true, false, length, take, drop, IfOk, OnOk, OnErr, IsErrOf};
ghost use Rattle.page_words.specs.FiniteMap as map;
ghost use Rattle.phys_memory.specs.Bytes.{frame_bytes};
ghost use Rattle.memory_image.specs.Machine.{IsImageOf};
ghost use Rattle.memory_image.specs.Sound.{IsSound, StandsFor};
ghost use Rattle.wide_image.specs.Stored.{StoresMachine, StoresFront, StoresHead, StoresHeadFront, frame_record};

use crate::frames::part_at;
use crate::gathering::offers_of;
use crate::images::WideImage;
use crate::offers::PendingOffer;
use crate::writing::{copy_used, stored_for, write_wide_head, write_wide_image};
use kernel_calls::Core;
use memory_image::{ImageRef, NoMemory, core_of, processes_of};
use page_words::Frame;
use std::alloc::Global;
use std::io::Write;

impl WideImage {
    /// Makes the core that a sound snapshot represents, apart from its offers, of which none is pending. It also
    /// returns the offers. The snapshot's bytes and roles become the core's.
    ///
    /// NoMemory if there is no memory for what a core keeps in addition to them.
    pub fn into_core(self, alloc: Global) -> Result<(Core, Vec<PendingOffer>), NoMemory>
        requires sound { IsSound self.image }
        ensures shows { IfOk result (λ made. IsImageOf made.0 self.image) }
        ensures stands { IfOk result (λ made. StandsFor self.image made.0.state) }
        ensures none { IfOk result (λ made. made.0.state.offers ≡ map.empty) }
        ensures offers { IfOk result (λ made. made.1.items ≡ self.offers) }
    {
        let (processes, roles, bytes, offers) = self.into_parts();
        match core_of(alloc, &processes, roles, bytes) {
            Ok(core) => Ok((core, offers)),
            Err(_) => Err(NoMemory),
        }
    }
}

/// Why the snapshot of a core was not written.
#[derive(Clone, Copy, Debug, PartialEq, Eq)]
pub enum StoreFault {
    /// There was no memory for the list of offers. Nothing was written.
    NoMemory,
    /// A write failed. A front of the snapshot was written.
    WriteFailed,
}

/// Writes the snapshot of a core, frame by frame: the whole machine with its pending offers. Memory isn't copied, and
/// free frames aren't written.
///
/// NoMemory if there is no memory for the list of offers, of which there are at most 2,048; nothing was written then.
/// WriteFailed if a write fails; nothing was written then, or a prefix.
pub fn write_core<W: Write>(alloc: Global, core: &Core, writer: &mut W) -> Result<(), StoreFault>
    ensures ok { OnOk result (StoresMachine core.now (W.contents writer.old) (W.contents writer.new)) }
    ensures err { OnErr result (StoresFront core.now (W.contents writer.old) (W.contents writer.new)) }
    ensures unwritten { IsErrOf result StoreFault.NoMemory → W.contents writer.new ≡ W.contents writer.old }
{
    let Ok(offers) = offers_of(alloc, core) else {
        return Err(StoreFault::NoMemory);
    };
    let processes = processes_of(core);
    let image = ImageRef::of_core(core, &processes);
    image.within();
    match write_wide_image(&image, offers.as_slice(), writer) {
        Ok(()) => Ok(()),
        Err(_) => Err(StoreFault::WriteFailed),
    }
}

/// Writes what the snapshot of a core begins with: all before the records of its frames. They follow it frame by frame,
/// as `copy_frame_record` gives them.
///
/// NoMemory if there is no memory for the list of offers; nothing was written then. WriteFailed if a write fails; nothing
/// was written then, or a prefix.
pub fn write_core_head<W: Write>(
    alloc: Global,
    core: &Core,
    writer: &mut W,
) -> Result<(), StoreFault>
    ensures ok { OnOk result (StoresHead core.now (W.contents writer.old) (W.contents writer.new)) }
    ensures err { OnErr result (StoresHeadFront core.now (W.contents writer.old) (W.contents writer.new)) }
    ensures unwritten { IsErrOf result StoreFault.NoMemory → W.contents writer.new ≡ W.contents writer.old }
{
    let Ok(offers) = offers_of(alloc, core) else {
        return Err(StoreFault::NoMemory);
    };
    let processes = processes_of(core);
    let image = ImageRef::of_core(core, &processes);
    image.within();
    match write_wide_head(&image, offers.as_slice(), writer) {
        Ok(()) => Ok(()),
        Err(_) => Err(StoreFault::WriteFailed),
    }
}

/// The bytes of a core's frame.
fn part_of(core: &Core, frame: Frame) -> &[u8]
    requires { frame < length core.now.roles }
    ensures is { result.now ≡ frame_bytes core.now.bytes frame }
    ensures length { length result.now ≡ 4096 }
{
    let _ = core.frames();
    part_at(core.memory().bytes(), 4096 * frame.0 as usize)
}

/// Copies the record of a core's frame to the front of bytes, of which there are at least 4,116, and returns true. A free
/// frame, and a number past the last, has none: then it copies nothing.
pub fn copy_frame_record(core: &Core, frame: Frame, bytes: &mut [u8]) -> bool
    requires { 4116 ≤ length bytes.old }
    ensures record { result ≡ true → take 4116 bytes.new ≡ frame_record core.now frame }
    ensures behind { result ≡ true → drop 4116 bytes.new ≡ drop 4116 bytes.old }
    ensures none { result ≡ false → frame_record core.now frame ≡ [] }
    ensures unwritten { result ≡ false → bytes.new ≡ bytes.old }
{
    if frame.0 >= core.frames() || stored_for(core.role(frame)) == 0 {
        return false;
    }
    copy_used(frame.0, core.role(frame), part_of(core, frame), bytes);
    true
}
