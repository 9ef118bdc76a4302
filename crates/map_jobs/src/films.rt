//! The film of a script, as one page.

ghost use Rattle.std.specs.Prelude.{◌≡◌, ◌++◌, IfOk, IfErr};
ghost use Rattle.map_jobs.specs.Films.{EndsFilm, FilmsScript, WritesFilm, answer_of_end, page_text};

use crate::film_page::{HEAD, TAIL};
use command_answers::{Answer, ToolFault, bytes_of};
use script_film::{End, film_of};
use std::alloc::{AllocError, Global};
use std::io::{Read, Write};
use text_output::write_whole;

/// Bytes between two others.
fn between(alloc: Global, front: &[u8], bytes: &[u8], back: &[u8]) -> Result<Vec<u8>, AllocError>
    ensures { IfOk result (λ text. text.items ≡ front.now ++ (bytes.now ++ back.now)) }
{
    let mut text = Vec::from_slice(alloc, front)?;
    text.extend_from_slice(bytes)?;
    text.extend_from_slice(back)?;
    Ok(text)
}

/// The page of a film with these rows.
#[tactic(auto, unfolding(crate::specs::Films::page_text))]
fn page_of(alloc: Global, rows: &[u8]) -> Result<Vec<u8>, AllocError>
    ensures { IfOk result (λ page. page.items ≡ page_text rows.now) }
{
    between(alloc, HEAD.as_bytes(), rows, TAIL.as_bytes())
}

/// Writes the page of a script's film, on a machine of so many frames, and says how the film ends.
///
/// BadSize where the number of frames is not 16 to 4,096, TooLong where the script has more than 16,777,216
/// bytes, and NoMemory: nothing is written then. WriteFailed comes last, and what was written is then a front of
/// the page.
pub fn write_film<O: Write>(
    alloc: Global,
    frames: u32,
    script: &[u8],
    output: &mut O,
) -> Result<End, ToolFault>
    ensures film { IfOk result (λ end. WritesFilm frames script.now end (O.contents output.old)
        (O.contents output.new)) }
    ensures fault { IfErr result (λ fault. EndsFilm frames script.now fault (O.contents output.old)
        (O.contents output.new)) }
{
    let film = match film_of(alloc, frames, script) {
        Ok(film) => film,
        Err(fault) => return Err(ToolFault::from(fault)),
    };
    let Ok(page) = page_of(alloc, film.rows.as_slice()) else {
        return Err(ToolFault::NoMemory);
    };
    match write_whole(output, page.as_slice()) {
        Ok(()) => Ok(film.end),
        Err(_) => Err(ToolFault::WriteFailed),
    }
}

/// Returns the answer for a film's end: the fault for a malformed line, otherwise Done.
fn answer_of_end(end: End) -> Answer
    ensures { result ≡ answer_of_end end }
{
    match end {
        End::Whole => Answer::Done,
        End::Cut => Answer::Done,
        End::Malformed { line } => Answer::Failed(ToolFault::Malformed { line }),
    }
}

/// Reads a script, and writes the page of its film, on a machine of so many frames.
///
/// The answer of a script with a malformed line is Failed by Malformed, behind the page of the lines before it;
/// ReadFailed where a read answers an error; the other faults are those of `write_film`.
pub fn film_script<I: Read + Drop, O: Write>(
    alloc: Global,
    frames: u32,
    input: I,
    output: &mut O,
) -> Answer
    ensures { FilmsScript frames result (I.remaining input) (O.contents output.old) (O.contents output.new) }
{
    let script = match bytes_of(alloc, input) {
        Ok(script) => script,
        Err(fault) => return Answer::Failed(fault),
    };
    match write_film(alloc, frames, script.as_slice(), output) {
        Ok(end) => answer_of_end(end),
        Err(fault) => Answer::Failed(fault),
    }
}
