//! The word of a command line that names a file.

ghost use Rattle.std.specs.Prelude.{◌≡◌, false};
ghost use Rattle.clap.specs.Words.{found_of, rows_of, rule_of};
ghost use Rattle.command_answers.specs.Files.{file_argument, file_in};

use clap::{Arg, ArgMatches};
use std::alloc::Global;

/// `FILE`, which must be there.
pub fn file_argument<'a>(alloc: Global) -> Arg<'a>
    ensures rule { rule_of result ≡ file_argument }
    ensures local { result.global ≡ false }
{
    Arg::new(alloc, "file")
        .value_name("FILE")
        .required(true)
        .help("The file of the image")
}

/// The name of the file that was given. `clap` takes no words without one; it would be the empty name.
pub fn file_in<'a>(matches: &ArgMatches<'a>) -> &'a str
    ensures { result.now ≡ file_in (rows_of (found_of matches.now)) }
{
    match matches.get_str("file") {
        Some(text) => text,
        None => "",
    }
}
