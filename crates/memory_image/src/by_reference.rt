//! Images whose parts lie elsewhere: in an image or in a core.

ghost use Rattle.std.specs.Prelude.{◌≡◌, ◌==◌, ◌+◌, ◌*◌, ◌<◌, ◌≤◌, IfSome, length};
ghost use Rattle.std.specs.List.{list_all};
ghost use Rattle.phys_memory.specs.Bytes.{frame_bytes};
ghost use Rattle.address_space.specs.Image.{word_of};
ghost use Rattle.memory_image.specs.Image.{frames, process_at, role_at, memory_of, IsWideImage};

use crate::images::{is_first_blank, word_or_zero};
use crate::processes::Process;
use alloc_table::Role;
use page_words::{Frame, Pid, WIDE_FRAMES};
use std::marker::Model;

/// An image whose parts lie elsewhere, in an `Image` or in a core. Nothing is copied, so it may have as many frames as
/// a wide core.
#[derive(Drop)]
pub struct ImageRef<'a> {
    version: u32,
    processes: &'a [Option<Process>; 64],
    roles: &'a [Role],
    bytes: &'a [u8],
}

impl<'a> Model for ImageRef<'a> {
    ghost use Rattle.memory_image.specs.Image.{Image, IsWideImage};
    ghost use Rattle.memory_image.specs.Codes.{image_code};

    ghost Value = { Image };

    ghost coded = { image_code };

    ghost view = { λ i. record {
      version = i.version;
      processes = i.processes.now;
      roles = i.roles.now;
      bytes =
          i.bytes.now;
    } };

    ghost invariant = { λ i. IsWideImage (record {
      version = i.version;
      processes = i.processes.now;
      roles =
          i.roles.now;
      bytes = i.bytes.now;
    }) };
}

impl<'a> ImageRef<'a> {
    /// The image with these fields.
    pub fn of_parts(
        version: u32,
        processes: &'a [Option<Process>; 64],
        roles: &'a [Role],
        bytes: &'a [u8],
    ) -> ImageRef<'a>
        requires { IsWideImage (record {
          version = version;
          processes = processes.now;
          roles = roles.now;
          bytes =
              bytes.now;
        }) }
        ensures { result ≡ record {
          version = version;
          processes = processes.now;
          roles = roles.now;
          bytes = bytes.now;
        } }
    {
        ImageRef {
            version,
            processes,
            roles,
            bytes,
        }
    }

    /// That its fields keep their rules. It computes nothing.
    pub fn within(&self)
        ensures { IsWideImage self.now }
    {
        let _ = &self.roles;
    }

    /// Which words its tables hold: 1, or 2 where pages can be lazy.
    pub fn version(&self) -> u32
        ensures { result ≡ self.now.version }
    {
        self.version
    }

    /// How many frames it has, 16 to 1,048,576.
    pub fn frames(&self) -> u32
        ensures count { result ≡ frames self.now }
        ensures fewest { 16 ≤ frames self.now }
        ensures most { frames self.now ≤ WIDE_FRAMES }
    {
        self.roles.len() as u32
    }

    /// What a process has, where it is live.
    pub fn process(&self, pid: Pid) -> Option<Process>
        ensures process { result ≡ process_at self.now pid }
        ensures inside { IfSome result (λ r. r.directory < frames self.now) }
    {
        self.processes[pid.number() as usize]
    }

    /// What a frame serves; None where the frame is past the end.
    pub fn role(&self, frame: Frame) -> Option<Role>
        ensures { result ≡ role_at self.now frame }
    {
        self.roles.get(frame.0 as usize).copied()
    }

    /// The word of an index of a frame; 0 where the frame is past the end.
    pub fn word(&self, frame: Frame, index: u32) -> u32
        requires { index < 1024 }
        ensures { result ≡ word_of (memory_of self.now) frame index }
    {
        word_or_zero(self.bytes, self.frames(), frame.0, index)
    }

    /// What each process has, by number, where it is live.
    pub fn processes(&self) -> &[Option<Process>]
        ensures { result.now ≡ self.now.processes }
    {
        let processes = self.processes;
        processes
    }

    /// What each frame serves, by number.
    pub fn roles(&self) -> &[Role]
        ensures { result.now ≡ self.now.roles }
    {
        self.roles
    }

    /// All bytes of all frames, from place 0 of frame 0 on.
    pub fn bytes(&self) -> &[u8]
        ensures { result.now ≡ self.now.bytes }
    {
        self.bytes
    }

    /// Whether frame 0 holds zeros.
    pub fn is_blank(&self) -> bool
        ensures { result ≡ list_all (λ b. b == 0) (frame_bytes self.now.bytes 0) }
    {
        is_first_blank(self.bytes)
    }
}
