//! The command line of `memory_map`.

ghost use Rattle.std.specs.Prelude.{◌≡◌, false, map, codes, IfOk, IfErr, Some};
ghost use Rattle.std.specs.Str.{bytes_eq};
ghost use Rattle.clap.specs.Words.{app_of, fault_of, found_of, kind_of, rows_of, rule_of, FailsBy};
ghost use Rattle.clap.specs.declared.builder.command.Command.TheViews.{out-Command as fields_of};
ghost use Rattle.map_jobs.specs.Drawings.{svg_flag, map_app, form_of, form_in, request_asked, as_asked};
ghost use Rattle.map_jobs.specs.Films.{film_flag, film_app, is_film, asks_film, frames_asked};

use crate::drawing::Form;
use clap::{Arg, ArgAction, ArgMatches, Command, Error};
use command_answers::{file_argument, file_in, frames_in, frames_option};
use std::alloc::{AllocError, Global};
use std::convert::AsStr;

/// What the command line requests.
#[derive(Clone, Copy, Debug, PartialEq, Eq)]
pub struct Request<'a> {
    /// What the image is drawn as.
    pub form: Form,
    /// The name of its file.
    pub file: &'a str,
}

/// `--svg`.
fn svg_flag<'a>(alloc: Global) -> Arg<'a>
    ensures rule { rule_of result ≡ svg_flag }
    ensures local { result.global ≡ false }
{
    Arg::new(alloc, "svg")
        .long("svg")
        .action(ArgAction::SetTrue)
        .help("Draws a picture, as SVG; text where it is absent")
}

/// `memory_map [--svg] FILE`.
fn map_command<'a>(alloc: Global) -> Result<Command<'a>, AllocError>
    ensures app { IfOk result (λ command. app_of command ≡ map_app) }
    ensures globals { IfOk result (λ command. (fields_of command).has_globals ≡ false) }
{
    Command::new(alloc, "memory_map")
        .about("Draws an image of memory: its frames, and what each process holds")
        .arg(svg_flag(alloc))?
        .arg(file_argument(alloc))
}

/// A picture where the text is `true`, and else text.
fn form_named(text: &str) -> Form
    ensures { result ≡ form_of (bytes_eq text.now (codes "true")) }
{
    if text == "true" {
        Form::Picture
    } else {
        Form::Text
    }
}

/// The form that was asked for.
fn form_in(matches: &ArgMatches<'_>) -> Form
    ensures { result ≡ form_in (rows_of (found_of matches.now)) }
{
    match matches.get_str("svg") {
        Some(text) => form_named(text),
        None => Form::Text,
    }
}

/// Returns what the arguments request, of which the first is the program's name. `clap` refuses all others, with its
/// own text; so it does a call for help.
pub fn request_of<'a, S: AsStr>(alloc: Global, words: &'a [S]) -> Result<Request<'a>, Error>
    // Ok comes only if `clap` finds no fault in the arguments. An error is OutOfMemory, or of a kind that `clap` finds.
    ensures fails { FailsBy (fault_of map_app (map S.text words.now)) result }
    ensures request { IfOk result (λ request. as_asked request ≡ request_asked (map S.text words.now)) }
{
    let matches = map_command(alloc)?.try_get_matches_from(words)?;
    Ok(Request {
        form: form_in(&matches),
        file: file_in(&matches),
    })
}

/// Whether a word is `--film`.
fn is_film(word: &str) -> bool
    ensures { result ≡ is_film word.now }
{
    word == "--film"
}

/// Returns whether the arguments request a film: `--film` is one of them.
pub fn asks_film<S: AsStr>(words: &[S]) -> bool
    ensures { result ≡ asks_film (map S.text words.now) }
{
    let mut asks = false;
    for place in 0..words.len() {
        asks = asks | is_film(words[place].as_str());
    }
    asks
}

/// `--film`.
fn film_flag<'a>(alloc: Global) -> Arg<'a>
    ensures rule { rule_of result ≡ film_flag }
    ensures local { result.global ≡ false }
{
    Arg::new(alloc, "film")
        .long("film")
        .action(ArgAction::SetTrue)
        .help("Films a script from standard input, step by step, as a page")
}

/// `memory_map --film [--frames N]`.
fn film_command<'a>(alloc: Global) -> Result<Command<'a>, AllocError>
    ensures app { IfOk result (λ command. app_of command ≡ film_app) }
    ensures globals { IfOk result (λ command. (fields_of command).has_globals ≡ false) }
{
    Command::new(alloc, "memory_map")
        .about("Films a script: each line with its reply, and what it changes in memory")
        .arg(film_flag(alloc))?
        .arg(frames_option(alloc))
}

/// Returns the number of frames of the film that the arguments request, of which the first is the program's name; 16 if
/// they give none. `clap` refuses all other arguments, with its own text; so it does a call for help.
pub fn frames_of<S: AsStr>(alloc: Global, words: &[S]) -> Result<u32, Error>
    // Ok comes only if `clap` finds no fault in the arguments. An error is OutOfMemory, or of a kind that `clap` finds.
    ensures fails { FailsBy (fault_of film_app (map S.text words.now)) result }
    ensures frames { IfOk result (λ frames. frames ≡ frames_asked (map S.text words.now)) }
{
    let matches = film_command(alloc)?.try_get_matches_from(words)?;
    Ok(frames_in(&matches).unwrap_or(16))
}
