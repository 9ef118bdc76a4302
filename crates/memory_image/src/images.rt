//! Images of a machine.

ghost use Rattle.std.specs.Prelude.{◌≡◌, ◌==◌, ◌+◌, ◌*◌, ◌<◌, ◌≤◌, ◌⊎◌, Some, IfSome, length};
ghost use Rattle.std.specs.List.{list_all};
ghost use Rattle.phys_memory.specs.Bytes.{word_at, word_in, frame_bytes};
ghost use Rattle.address_space.specs.Image.{word_of};
ghost use Rattle.memory_image.specs.Image.{Image, IsImage, frames, process_at, role_at, memory_of};

use crate::by_reference::ImageRef;
use crate::processes::Process;
use alloc_table::Role;
use byteorder::{ByteOrder, LittleEndian};
use page_words::{Frame, Pid};
use phys_memory::FRAME_BYTES;
use std::marker::Model;

/// An image: what a machine shows of itself at one moment, or what someone says that one did. Its fields
/// keep their rules; whether they agree with one another is for a check to say.
#[derive(Drop)]
pub struct Image {
    version: u32,
    processes: [Option<Process>; 64],
    roles: Vec<Role>,
    bytes: Vec<u8>,
}

impl Model for Image {
    ghost use Rattle.memory_image.specs.Image.{Image, IsImage};
    ghost use Rattle.memory_image.specs.Codes.{image_code};

    ghost Value = { Image };

    ghost coded = { image_code };

    ghost view = { λ i. record {
      version = i.version;
      processes = i.processes;
      roles = i.roles.items;
      bytes =
          i.bytes.items;
    } };

    ghost invariant = { λ i. IsImage (record {
      version = i.version;
      processes = i.processes;
      roles = i.roles.items;
      bytes = i.bytes.items;
    }) };
}

impl Image {
    /// The image with these fields.
    pub(crate) fn with_parts(
        version: u32,
        processes: [Option<Process>; 64],
        roles: Vec<Role>,
        bytes: Vec<u8>,
    ) -> Image
        requires { IsImage (record {
          version = version;
          processes = processes;
          roles = roles.items;
          bytes = bytes.items;
        }) }
        ensures { result ≡ record {
          version = version;
          processes = processes;
          roles = roles.items;
          bytes = bytes.items;
        } }
    {
        Image {
            version,
            processes,
            roles,
            bytes,
        }
    }

    /// What each process has, by number, what each frame serves, and all bytes.
    pub(crate) fn into_parts(self) -> ([Option<Process>; 64], Vec<Role>, Vec<u8>)
        ensures processes { result.0 ≡ self.processes }
        ensures roles { result.1.items ≡ self.roles }
        ensures bytes { result.2.items ≡ self.bytes }
        ensures fields { IsImage self }
    {
        let Image {
            version: _,
            processes,
            roles,
            bytes,
        } = self;
        (processes, roles, bytes)
    }

    /// The same image, with its parts where they are.
    pub fn by_ref(&self) -> ImageRef<'_>
        ensures { result ≡ self.now }
    {
        ImageRef::of_parts(self.version, &self.processes, &self.roles, &self.bytes)
    }

    /// That its fields keep their rules. It computes nothing.
    pub fn within(&self)
        ensures { IsImage self.now }
    {
        let _ = &self.roles;
    }

    /// Which words its tables hold: 1, or 2 where pages can be lazy.
    pub fn version(&self) -> u32
        ensures { result ≡ self.now.version }
    {
        self.version
    }

    /// How many frames it has, 16 to 4,096.
    pub fn frames(&self) -> u32
        ensures count { result ≡ frames self.now }
        ensures fewest { 16 ≤ frames self.now }
        ensures most { frames self.now ≤ 4096 }
    {
        self.roles.len() as u32
    }

    /// What a process has, where it is live.
    pub fn process(&self, pid: Pid) -> Option<Process>
        ensures process { result ≡ process_at self.now pid }
        ensures inside { IfSome result (λ r. r.directory < frames self.now) }
    {
        self.processes[pid.number() as usize]
    }

    /// What a frame serves; None where the frame is past the end.
    pub fn role(&self, frame: Frame) -> Option<Role>
        ensures { result ≡ role_at self.now frame }
    {
        self.roles.get(frame.0 as usize).copied()
    }

    /// The word of an index of a frame; 0 where the frame is past the end.
    pub fn word(&self, frame: Frame, index: u32) -> u32
        requires { index < 1024 }
        ensures { result ≡ word_of (memory_of self.now) frame index }
    {
        word_or_zero(&self.bytes, self.frames(), frame.0, index)
    }

    /// What each process has, by number.
    pub(crate) fn processes(&self) -> &[Option<Process>]
        ensures { result.now ≡ self.now.processes }
    {
        &self.processes
    }

    /// What each frame serves.
    pub(crate) fn roles(&self) -> &[Role]
        ensures { result.now ≡ self.now.roles }
    {
        self.roles.as_slice()
    }

    /// All bytes of all frames, from place 0 of frame 0 on.
    pub fn bytes(&self) -> &[u8]
        ensures { result.now ≡ self.now.bytes }
    {
        self.bytes.as_slice()
    }

    /// Whether frame 0 holds zeros.
    pub fn is_blank(&self) -> bool
        ensures { result ≡ list_all (λ b. b == 0) (frame_bytes self.now.bytes 0) }
    {
        is_first_blank(&self.bytes)
    }
}

#[tactic(auto, unfolding(phys_memory::specs::Bytes::frame_bytes))]
pub(crate) fn is_first_blank(bytes: &[u8]) -> bool
    requires { 4096 ≤ length bytes.now }
    ensures { result ≡ list_all (λ b. b == 0) (frame_bytes bytes.now 0) }
{
    are_zeros(&bytes[..FRAME_BYTES])
}

fn are_zeros(bytes: &[u8]) -> bool
    ensures { result ≡ list_all (λ b. b == 0) bytes.now }
{
    bytes.iter().all(|b| *b == 0)
}

#[tactic(auto, unfolding(phys_memory::specs::Bytes::word_at))]
fn word_from(bytes: &[u8], place: usize) -> u32
    requires { place + 4 ≤ length bytes.now }
    ensures { result ≡ word_at bytes.now place }
{
    LittleEndian::read_u32(&bytes[place..])
}

#[tactic(auto, using(page_map::proofs::Steps::word_read))]
fn word_at_index(bytes: &[u8], frame: u32, index: u32) -> u32
    requires inside { 4096 * frame + 4096 ≤ length bytes.now }
    requires index { index < 1024 }
    ensures { result ≡ word_in (frame_bytes bytes.now frame) index }
{
    word_from(bytes, FRAME_BYTES * frame as usize + index as usize * 4)
}

pub(crate) fn word_or_zero(bytes: &[u8], frames: u32, frame: u32, index: u32) -> u32
    requires size { length bytes.now ≡ 4096 * frames }
    requires index { index < 1024 }
    ensures { result ≡ word_in (frame_bytes bytes.now frame) index }
{
    if frame < frames {
        word_at_index(bytes, frame, index)
    } else {
        0
    }
}
