//! The check of an image.

ghost use Rattle.std.specs.Prelude.{◌≡◌, ◌≤◌, IfOk, IfSome, is_none, length, map};
ghost use Rattle.memory_image.specs.Image.{frames};
ghost use Rattle.image_check.specs.Counts as counts;
ghost use Rattle.std.specs.Bool.{Decides};
ghost use Rattle.std.specs.List.{list_all, range_with_len};
ghost use Rattle.memory_image.specs.Sound.{IsSound};
ghost use Rattle.image_check.specs.Told.{fails_nothing, verdict_on, process_told, frame_told};
ghost use Rattle.image_check.specs.Adds.{Adds, AreZeros, Counts};
ghost use Rattle.image_check.specs.Verdict.{process_clause, frame_clause};

use crate::clauses::{FrameClause, ProcessClause};
use crate::counting::pid_of;
use crate::frame_clauses::frame_clause;
use crate::process_clauses::judge_process;
use memory_image::{Image, ImageRef, NoMemory};
use page_words::{Frame, Pid, WIDE_FRAMES};
use std::alloc::Global;
use std::marker::Model;

/// For each process and each frame the first clause that it fails.
#[derive(Drop)]
pub struct Verdict {
    processes: [Option<ProcessClause>; 64],
    frames: Vec<Option<FrameClause>>,
}

impl Model for Verdict {
    ghost use Rattle.std.specs.Prelude.{◌≡◌, ◌≤◌, length};
    ghost use Rattle.image_check.specs.Told.{Told};
    ghost use Rattle.image_check.specs.Codes.{told_code};

    ghost Value = { Told };

    ghost coded = { told_code };

    ghost view = { λ v. record { processes = v.processes; frames = v.frames.items } };

    ghost invariant = { λ v. (length v.processes ≡ 64) × (length v.frames.items ≤ 1048576) };
}

/// Checks all processes, and adds what they name and map to counts of zeros.
fn judge_processes(
    image: &ImageRef<'_>,
    names: &mut [u32],
    maps: &mut [u32],
) -> [Option<ProcessClause>; 64]
    requires names { AreZeros names.old }
    requires maps { AreZeros maps.old }
    ensures clauses { result ≡ map (process_clause image.now) (range_with_len 0 64) }
    ensures length { length result ≡ 64 }
    ensures names { Adds names.old names.new (λ f. counts.names image.now f) }
    ensures maps { Adds maps.old maps.new (λ f. counts.maps image.now f) }
{
    let mut clauses = [None; 64];
    for number in 0..64 {
        clauses[number as usize] = judge_process(image, pid_of(number), names, maps);
    }
    clauses
}

fn judge_frames(
    image: &ImageRef<'_>,
    names: &[u32],
    maps: &[u32],
    clauses: &mut [Option<FrameClause>],
)
    requires length { length clauses.old ≡ frames image.now }
    requires names { Counts names.now (frames image.now) (λ f. counts.names image.now f) }
    requires maps { Counts maps.now (frames image.now) (λ f. counts.maps image.now f) }
    ensures clauses { clauses.new ≡ map (frame_clause image.now) (range_with_len 0 (frames image.now)) }
    ensures length { length clauses.new ≡ length clauses.old }
{
    let frames = image.frames();
    for frame in 0..frames {
        let place = frame as usize;
        clauses[place] = frame_clause(image, Frame(frame), names[place], maps[place]);
    }
}

fn no_process_fails(clauses: &[Option<ProcessClause>]) -> bool
    ensures { result ≡ list_all is_none clauses.now }
{
    clauses.iter().all(|clause| clause.is_none())
}

fn no_frame_fails(clauses: &[Option<FrameClause>]) -> bool
    ensures { result ≡ list_all is_none clauses.now }
{
    clauses.iter().all(|clause| clause.is_none())
}

impl Verdict {
    /// The verdict on an image, from what its 64 processes fail and how often its frames are named and mapped. It
    /// allocates nothing: `room` has a place for each frame, whatever it holds.
    pub fn of_counts(
        image: &ImageRef<'_>,
        processes: [Option<ProcessClause>; 64],
        names: &[u32],
        maps: &[u32],
        room: Vec<Option<FrameClause>>,
    ) -> Verdict
        requires processes { processes ≡ map (process_clause image.now) (range_with_len 0 64) }
        requires names { Counts names.now (frames image.now) (λ f. counts.names image.now f) }
        requires maps { Counts maps.now (frames image.now) (λ f. counts.maps image.now f) }
        requires room { length room.items ≡ frames image.now }
        ensures verdict { result ≡ verdict_on image.now }
    {
        image.within();
        let mut clauses = room;
        judge_frames(image, names, maps, &mut clauses);
        Verdict {
            processes,
            frames: clauses,
        }
    }

    /// Whether no clause fails.
    pub fn sound(&self) -> bool
        ensures { result ≡ fails_nothing self.now }
    {
        no_process_fails(&self.processes) && no_frame_fails(&self.frames)
    }

    /// The first clause that a process fails.
    pub fn process(&self, pid: Pid) -> Option<ProcessClause>
        ensures { result ≡ process_told self.now pid }
    {
        match self.processes.get(pid.number() as usize) {
            Some(clause) => *clause,
            None => None,
        }
    }

    /// The first clause that a frame fails; None where the frame is past the end.
    pub fn frame(&self, frame: Frame) -> Option<FrameClause>
        ensures { result ≡ frame_told self.now frame }
    {
        match self.frames.get(frame.0 as usize) {
            Some(failed) => *failed,
            None => None,
        }
    }

    /// What each process fails, by number.
    pub(crate) fn processes(&self) -> &[Option<ProcessClause>]
        ensures clauses { result.now ≡ self.now.processes }
        ensures length { length result.now ≡ 64 }
    {
        &self.processes
    }

    /// What each frame fails.
    pub(crate) fn frames(&self) -> &[Option<FrameClause>]
        ensures clauses { result.now ≡ self.now.frames }
        ensures few { length result.now ≤ WIDE_FRAMES }
    {
        self.frames.as_slice()
    }
}

/// The verdict on an image.
fn judged(alloc: Global, image: &ImageRef<'_>) -> Option<Verdict>
    ensures { IfSome result (λ v. v ≡ verdict_on image.now) }
{
    let frames = image.frames() as usize;
    let Ok(mut names) = vec![in alloc; 0u32; frames] else {
        return None;
    };
    let Ok(mut maps) = vec![in alloc; 0u32; frames] else {
        return None;
    };
    let Ok(mut clauses) = vec![in alloc; None; frames] else {
        return None;
    };
    let processes = judge_processes(image, &mut names, &mut maps);
    Some(Verdict::of_counts(image, processes, &names, &maps, clauses))
}

/// What fails of an image, wherever its parts lie: of each process and each frame the first clause. None fails exactly
/// where the image is sound. It allocates 10 bytes for each frame.
///
/// NoMemory where there is no memory for the counts and the verdict.
pub fn check_by_ref(alloc: Global, image: &ImageRef<'_>) -> Result<Verdict, NoMemory>
    ensures verdict { IfOk result (λ v. v ≡ verdict_on image.now) }
    ensures sound { IfOk result (λ v. Decides (fails_nothing v) (IsSound image.now)) }
{
    image.within();
    match judged(alloc, image) {
        Some(verdict) => Ok(verdict),
        None => Err(NoMemory),
    }
}

/// What fails of an image, as `check_by_ref`.
pub fn check(alloc: Global, image: &Image) -> Result<Verdict, NoMemory>
    ensures verdict { IfOk result (λ v. v ≡ verdict_on image.now) }
    ensures sound { IfOk result (λ v. Decides (fails_nothing v) (IsSound image.now)) }
{
    check_by_ref(alloc, &image.by_ref())
}
