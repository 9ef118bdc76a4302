//! Who maps each frame, and how many lazy pages each process has.

ghost use Rattle.std.specs.Prelude.{◌≡◌, ◌<◌, Some};
ghost use Rattle.memory_image.specs.Image.{process_at};

use crate::page_flags::is_lazy_word;
use crate::runs::{Run, runs_at};
use image_check::{ImageRef, Process, pid_of};
use page_map::{FIRST_SLOT, SLOT_END};
use page_words::{Frame, Pid, TableWord};
use std::alloc::{AllocError, Global};

/// The processes that map a frame, in ascending order.
#[derive(Clone, Copy, Debug, PartialEq, Eq)]
pub(crate) enum Owners {
    Nobody,
    One(Pid),
    Two(Pid, Pid),
    /// Two, and others.
    More(Pid, Pid),
}

impl Owners {
    /// The first of them.
    pub(crate) fn first(self) -> Option<Pid> {
        match self {
            Owners::Nobody => None,
            Owners::One(first) => Some(first),
            Owners::Two(first, _) => Some(first),
            Owners::More(first, _) => Some(first),
        }
    }

    /// The second of them.
    pub(crate) fn second(self) -> Option<Pid> {
        match self {
            Owners::Nobody => None,
            Owners::One(_) => None,
            Owners::Two(_, second) => Some(second),
            Owners::More(_, second) => Some(second),
        }
    }

    /// With a process that is none of them, or is the last of them.
    fn with(self, pid: Pid) -> Owners {
        match self {
            Owners::Nobody => Owners::One(pid),
            Owners::One(first) => {
                if first == pid {
                    Owners::One(first)
                } else {
                    Owners::Two(first, pid)
                }
            }
            Owners::Two(first, second) => {
                if second == pid {
                    Owners::Two(first, second)
                } else {
                    Owners::More(first, second)
                }
            }
            Owners::More(first, second) => Owners::More(first, second),
        }
    }
}

/// What the processes of an image map.
#[derive(Drop)]
pub(crate) struct Mapped {
    /// Who maps each frame.
    owners: Vec<Owners>,
    /// How many lazy pages each process has.
    lazy: [u32; 64],
}

impl Mapped {
    /// Who maps a frame; nobody where the frame is past the end.
    pub(crate) fn owners(&self, frame: Frame) -> Owners {
        match self.owners.get(frame.0 as usize) {
            Some(owners) => *owners,
            None => Owners::Nobody,
        }
    }

    /// How many lazy pages a process has.
    pub(crate) fn lazy(&self, pid: Pid) -> u32 {
        match self.lazy.get(pid.number() as usize) {
            Some(pages) => *pages,
            None => 0,
        }
    }

    /// Adds the pages of a run of a process.
    fn add_run(&mut self, version: u32, pid: Pid, run: &Run) {
        if is_lazy_word(version, run.word) {
            let pages = run.last.0.saturating_sub(run.first.0).saturating_add(1);
            if let Some(lazy) = self.lazy.get_mut(pid.number() as usize) {
                *lazy = lazy.saturating_add(pages);
            }
        } else {
            let frame = TableWord::read(run.word).frame();
            if let Some(owners) = self.owners.get_mut(frame.0 as usize) {
                *owners = owners.with(pid);
            }
        }
    }

    /// Adds the pages of runs of a process.
    fn add_runs(&mut self, version: u32, pid: Pid, runs: &[Run]) {
        for run in runs {
            self.add_run(version, pid, run);
        }
    }

    /// Adds the pages of a live process.
    fn add_process(&mut self, image: &ImageRef<'_>, pid: Pid, process: &Process)
        requires { process_at image.now pid ≡ Some process.now }
    {
        for slot in FIRST_SLOT..SLOT_END {
            let runs = runs_at(image, pid, process.directory, slot);
            self.add_runs(image.version(), pid, runs.as_slice());
        }
    }

    /// What the processes of an image map, by the tables that are their own. An error if there is no memory for it.
    pub(crate) fn of(alloc: Global, image: &ImageRef<'_>) -> Result<Mapped, AllocError> {
        let mut mapped = Mapped {
            owners: vec![in alloc; Owners::Nobody; image.frames() as usize]?,
            lazy: [0; 64],
        };
        for number in 0..64 {
            let pid = pid_of(number);
            if let Some(process) = image.process(pid) {
                mapped.add_process(image, pid, &process);
            }
        }
        Ok(mapped)
    }
}
