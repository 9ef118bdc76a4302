//! Runs a command line of `memory_map`.

ghost use Rattle.std.specs.Prelude.{◌≡◌, map};
ghost use Rattle.command_answers.specs.Files.{IsOf};
ghost use Rattle.map_jobs.specs.Drawings.{AnswersWords, DrawsFile, DrawsNamed, DrawsPlain, DrawsStored};
ghost use Rattle.map_jobs.specs.Films.{AnswersAll, AnswersFilm};

use crate::drawing::{Form, draw_bytes, draw_whole};
use crate::films::film_script;
use crate::jobs::{asks_film, frames_of, request_of};
use command_answers::{Answer, Opens, ToolFault, bytes_of, front_of, refuse, says_whole};
use std::alloc::Global;
use std::convert::AsStr;
use std::io::{Read, Write};

/// Draws the image of version 1 or 2 that a file has.
fn draw_plain<F: Read + Drop, O: Write>(
    alloc: Global,
    form: Form,
    file: F,
    output: &mut O,
) -> Answer
    ensures { DrawsPlain form result (F.remaining file) (O.contents output.old) (O.contents output.new) }
{
    let bytes = match bytes_of(alloc, file) {
        Ok(bytes) => bytes,
        Err(fault) => return Answer::Failed(fault),
    };
    match draw_bytes(alloc, form, bytes.as_slice(), output) {
        Ok(true) => Answer::Done,
        Ok(false) => Answer::NotSound,
        Err(fault) => Answer::Failed(fault),
    }
}

/// Draws the snapshot that a file has, piece by piece.
fn draw_stored<F: Read, O: Write>(alloc: Global, form: Form, file: &mut F, output: &mut O) -> Answer
    ensures { DrawsStored form result (F.remaining file.old) (O.contents output.old) (O.contents output.new) }
{
    match draw_whole(alloc, form, file, output) {
        Ok(true) => Answer::Done,
        Ok(false) => Answer::NotSound,
        Err(fault) => Answer::Failed(fault),
    }
}

/// Draws the image or the snapshot that a file has, as its first bytes say.
fn draw_file<F: Read + Drop, O: Write>(alloc: Global, form: Form, file: F, output: &mut O) -> Answer
    ensures { DrawsFile form result (F.remaining file) (O.contents output.old) (O.contents output.new) }
{
    let mut file = file;
    let front = match front_of(&mut file) {
        Ok(front) => front,
        Err(fault) => return Answer::Failed(fault),
    };
    let mut content = front.as_slice().chain(file);
    if says_whole(front.as_slice()) {
        draw_stored(alloc, form, &mut content, output)
    } else {
        draw_plain(alloc, form, content, output)
    }
}

/// Draws the image in the file of that name; ReadFailed where it can't be opened.
fn draw_named<R: AllocGlobal + Opens, O: Write>(
    rt: &R,
    form: Form,
    name: &str,
    output: &mut O,
) -> Answer
    ensures { DrawsNamed (IsOf R.Opened.remaining R.named name.now) form result (O.contents output.old)
        (O.contents output.new) }
{
    match rt.open_named(name) {
        Ok(file) => draw_file(rt.alloc(), form, file, output),
        Err(_) => Answer::Failed(ToolFault::ReadFailed),
    }
}

/// Draws the image in the file that the words name, of which the first is the program's name, as text or
/// with `--svg` as a picture.
///
/// Done where the image is sound, NotSound where it isn't; ReadFailed where the file can't be opened or read; the other
/// faults are those of `draw_bytes`, or for a snapshot of `draw_whole`.
pub fn draw<R: AllocGlobal + Opens, S: AsStr, O: Write>(
    rt: &R,
    words: &[S],
    output: &mut O,
) -> Answer
    ensures { AnswersWords (IsOf R.Opened.remaining R.named) (map S.text words.now) result (O.contents output.old)
        (O.contents output.new) }
{
    match request_of(rt.alloc(), words) {
        Ok(request) => draw_named(rt, request.form, request.file, output),
        Err(error) => refuse(error),
    }
}

/// Films the script that `input` has, as the words ask, of which the first is the program's name.
fn film<S: AsStr, I: Read + Drop, O: Write>(
    alloc: Global,
    words: &[S],
    input: I,
    output: &mut O,
) -> Answer
    ensures { AnswersFilm (map S.text words.now) result (I.remaining input) (O.contents output.old)
        (O.contents output.new) }
{
    match frames_of(alloc, words) {
        Ok(frames) => film_script(alloc, frames, input, output),
        Err(refused) => refuse(refused),
    }
}

/// Does what the arguments request, of which the first is the program's name. With `--film` it films the script in
/// `input`; otherwise it draws the image in a file.
///
/// Done where a film was written or the image is sound, NotSound where it isn't. Of a film the faults are those
/// of `film_script`, of a drawing those of `draw`.
pub fn answer<R: AllocGlobal + Opens, S: AsStr, I: Read + Drop, O: Write>(
    rt: &R,
    words: &[S],
    input: I,
    output: &mut O,
) -> Answer
    ensures { AnswersAll (IsOf R.Opened.remaining R.named) (map S.text words.now) result (I.remaining input)
        (O.contents output.old) (O.contents output.new) }
{
    if asks_film(words) {
        film(rt.alloc(), words, input, output)
    } else {
        draw(rt, words, output)
    }
}
