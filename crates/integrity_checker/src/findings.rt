//! What was found of some processes of an image: the clauses that they fail, and what they name and map.

ghost use Rattle.std.specs.Prelude.{◌≡◌, ◌<◌, IfSome, [], length, map, slice_index, slice_set};
ghost use Rattle.std.specs.List.{range_with_len};
ghost use Rattle.memory_image.specs.Image.{frames};
ghost use Rattle.image_check.specs.Counts.{names_by, maps_by};
ghost use Rattle.image_check.specs.Verdict.{process_clause};
ghost use Rattle.image_check.specs.Adds.{Adds, Counts, HaveRoom};
ghost use Rattle.integrity_checker.specs.Found.{IsFound, HaveRoomFor, clause_at, either};

use image_check::{ProcessClause, judge_process, pid_of};
use memory_image::Image;
use std::alloc::Global;

/// What was found of some processes.
#[derive(Drop)]
pub struct Findings {
    /// For each process the first clause that it fails, if it was checked.
    pub clauses: [Option<ProcessClause>; 64],
    /// For each frame how often the directories of these processes name it.
    pub names: Vec<u32>,
    /// For each frame how many of their pages are mapped to it.
    pub maps: Vec<u32>,
}

impl Findings {
    /// What is found of no process; None where there is no memory for the counts.
    pub fn new(alloc: Global, image: &Image) -> Option<Findings>
        ensures { IfSome result (λ r. IsFound image.now [] r.clauses r.names.items r.maps.items) }
    {
        let frames = image.frames() as usize;
        let names = zeros(alloc, frames)?;
        let maps = zeros(alloc, frames)?;
        Some(nothing(image, names, maps))
    }

    /// Checks one process more, and returns the first clause that it fails.
    pub fn judge(&mut self, image: &Image, number: u8) -> Option<ProcessClause>
        requires number { number < 64 }
        requires names { HaveRoom self.old.names.items 704 }
        requires maps { HaveRoom self.old.maps.items 720896 }
        ensures clause { result ≡ process_clause image.now number }
        ensures clauses { self.new.clauses ≡ slice_set self.old.clauses number (process_clause image.now number) }
        ensures names { Adds self.old.names.items self.new.names.items (λ f. names_by image.now number f) }
        ensures maps { Adds self.old.maps.items self.new.maps.items (λ f. maps_by image.now number f) }
    {
        let pid = pid_of(number);
        let clause = judge_process(&image.by_ref(), pid, &mut self.names, &mut self.maps);
        self.clauses[number as usize] = clause;
        clause
    }

    /// Adds what was found of others.
    pub fn add(&mut self, other: &Findings)
        requires names { HaveRoomFor self.old.names.items other.now.names.items }
        requires maps { HaveRoomFor self.old.maps.items other.now.maps.items }
        ensures clauses { self.new.clauses ≡ map (λ p. either (clause_at self.old.clauses p)
            (clause_at other.now.clauses p)) (range_with_len 0 64) }
        ensures names { Adds self.old.names.items self.new.names.items (λ f. slice_index other.now.names.items f) }
        ensures maps { Adds self.old.maps.items self.new.maps.items (λ f. slice_index other.now.maps.items f) }
    {
        self.clauses = both(&self.clauses, &other.clauses);
        add_counts(&mut self.names, &other.names);
        add_counts(&mut self.maps, &other.maps);
    }
}

/// So many zeros; None where there is no memory for them.
fn zeros(alloc: Global, count: usize) -> Option<Vec<u32>>
    ensures { IfSome result (λ v. Counts v.items count (λ _. 0)) }
{
    match vec![in alloc; 0u32; count] {
        Ok(counts) => Some(counts),
        Err(_) => None,
    }
}

/// What is found of no process, with counts of zeros.
fn nothing(image: &Image, names: Vec<u32>, maps: Vec<u32>) -> Findings
    requires names { Counts names.items (frames image.now) (λ _. 0) }
    requires maps { Counts maps.items (frames image.now) (λ _. 0) }
    ensures { IsFound image.now [] result.clauses result.names.items result.maps.items }
{
    image.within();
    Findings {
        clauses: [None; 64],
        names,
        maps,
    }
}

/// For each process the clause that was found of it on either side.
fn both(
    mine: &[Option<ProcessClause>; 64],
    other: &[Option<ProcessClause>; 64],
) -> [Option<ProcessClause>; 64]
    ensures clauses { result ≡ map (λ p. either (clause_at mine.now p) (clause_at other.now p)) (range_with_len 0 64) }
    ensures length { length result ≡ 64 }
{
    let mut clauses = [None; 64];
    for place in 0..64usize {
        clauses[place] = either(mine[place], other[place]);
    }
    clauses
}

/// The first of two, where there is one.
fn either(mine: Option<ProcessClause>, other: Option<ProcessClause>) -> Option<ProcessClause>
    ensures { result ≡ either mine other }
{
    match mine {
        Some(clause) => Some(clause),
        None => other,
    }
}

/// Adds counts of frames.
fn add_counts(into: &mut [u32], counts: &[u32])
    requires { HaveRoomFor into.old counts.now }
    ensures { Adds into.old into.new (λ f. slice_index counts.now f) }
{
    for place in 0..into.len() {
        into[place] += counts[place];
    }
}
