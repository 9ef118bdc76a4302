//! The film of a script.

ghost use Rattle.std.specs.Prelude.{◌≡◌, ℕ, ◌≤◌, ◌<◌, ◌++◌, [], ◌∷◌, ◌↔◌, IfOk, IfErr, IsErrOf, IfSome, MatchOption, length};
ghost use Rattle.script_run.specs.Script.{lines_of};
ghost use Rattle.script_film.specs.Rows.{frames_row, end_row};
ghost use Rattle.script_film.specs.Film.{IsFilm, IsRefused};
ghost use Rattle.script_film.specs.Recordings.{Records, Reaches};

use crate::ends::End;
use crate::recording::{Recording, Shot};
use crate::rows::{end_row, frames_row};
use page_words::is_frame_count;
use script_run::{SCRIPT_BYTES, ScriptFault, split_line};
use std::alloc::Global;

/// The data of a film, and how it ends.
#[derive(Drop)]
pub struct Film {
    /// The rows, as text.
    pub rows: Vec<u8>,
    /// How it ends.
    pub end: End,
}

/// The first line, and what stands behind its line feed, where it has one.
fn first_line(bytes: &[u8]) -> (&[u8], Option<&[u8]>)
    ensures lines { MatchOption result.1 (lines_of bytes.now ≡ result.0.now ∷ [])
        (λ after. lines_of bytes.now ≡ result.0.now ∷ lines_of after.now) }
    ensures shorter { IfSome result.1 (λ after. length after.now < length bytes.now) }
{
    match split_line(bytes) {
        Some((line, after)) => (line, Some(after)),
        None => (bytes, None),
    }
}

/// Takes the lines of a script up to the end of its film.
fn take_lines(alloc: Global, recording: &mut Recording, script: &[u8]) -> Result<End, ScriptFault>
    requires short { length script.now ≤ 16777216 }
    requires events { recording.old.events ≤ 2000 }
    ensures reaches { (frames : ℕ) → Records frames [] recording.old
        → IfOk result (λ end. Reaches frames script.now end recording.new) }
    ensures fault { IfErr result (λ fault. fault ≡ ScriptFault.NoMemory) }
{
    let mut rest = Some(script);
    let mut number = 1;
    while let Some(bytes) = rest {
        let (line, after) = first_line(bytes);
        match recording.take_line(alloc, line)? {
            Shot::Told => {}
            Shot::Malformed => return Ok(End::Malformed { line: number }),
            Shot::TooMany => return Ok(End::Cut),
        }
        rest = after;
        number += 1;
    }
    Ok(End::Whole)
}

/// The rows of a film, joined.
fn rows_of(alloc: Global, frames: u32, rows: &[u8], end: End) -> Result<Vec<u8>, ScriptFault>
    ensures rows { IfOk result (λ text. text.items ≡ frames_row frames ++ (rows.now ++ end_row end)) }
    ensures fault { IfErr result (λ fault. fault ≡ ScriptFault.NoMemory) }
{
    let mut text = Vec::from_slice(alloc, frames_row(frames).as_slice())?;
    text.extend_from_slice(rows)?;
    text.extend_from_slice(end_row(end).as_slice())?;
    Ok(text)
}

/// The film of a script that isn't too long, on a machine that may have so many frames.
fn recorded(alloc: Global, frames: u32, script: &[u8]) -> Result<Film, ScriptFault>
    requires size { (16 ≤ frames) × (frames ≤ 4096) }
    requires short { length script.now ≤ 16777216 }
    ensures film { IfOk result (λ film. IsFilm frames script.now film.rows.items film.end) }
    ensures fault { IfErr result (λ fault. fault ≡ ScriptFault.NoMemory) }
{
    let mut recording = Recording::begin(alloc, frames)?;
    let end = take_lines(alloc, &mut recording, script)?;
    let rows = rows_of(alloc, frames, recording.rows.as_slice(), end)?;
    Ok(Film { rows, end })
}

/// The film of a script on a machine of so many frames: its data as rows, and how it ends.
///
/// A film shows the lines before the first malformed one, and 2,000 events at most. The faults come in this order:
/// BadSize if the number of frames is not 16 to 4,096, TooLong if the script has more than 16,777,216 bytes, NoMemory.
pub fn film_of(alloc: Global, frames: u32, script: &[u8]) -> Result<Film, ScriptFault>
    ensures film { IfOk result (λ film. IsFilm frames script.now film.rows.items film.end) }
    ensures fault { IfErr result (λ fault. IsRefused fault frames script.now) }
    ensures size { IsErrOf result ScriptFault.BadSize ↔ (16 ≤ frames → frames ≤ 4096 → ⊥) }
    ensures long { IsErrOf result ScriptFault.TooLong ↔ (16 ≤ frames) × (frames ≤ 4096)
        × (16777216 < length script.now) }
{
    if !is_frame_count(frames) {
        return Err(ScriptFault::BadSize);
    }
    if script.len() > SCRIPT_BYTES {
        return Err(ScriptFault::TooLong);
    }
    recorded(alloc, frames, script)
}
