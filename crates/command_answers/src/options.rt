//! The options of a command line that have a number.

ghost use Rattle.std.specs.Prelude.{◌≡◌, false};
ghost use Rattle.clap.specs.Words.{found_of, rows_of, rule_of};
ghost use Rattle.command_answers.specs.Options.{frames_option, frames_in, number_in};

use clap::{Arg, ArgMatches};
use std::alloc::Global;

/// How many frames a machine has where the command line does not say.
const FRAMES: u32 = 16;

/// `--frames N`.
pub fn frames_option<'a>(alloc: Global) -> Arg<'a>
    ensures rule { rule_of result ≡ frames_option }
    ensures local { result.global ≡ false }
{
    Arg::new(alloc, "frames")
        .long("frames")
        .value_name("N")
        .value_parser(clap::value_parser!(u32))
        .help("The frames of a machine's memory, 16 to 4096; 16 where it is absent")
}

/// The number that was asked for by the option of that name, or the other one where it was not; None
/// where what stands there is no number.
pub fn number_in(matches: &ArgMatches<'_>, name: &str, absent: u32) -> Option<u32>
    ensures { result ≡ number_in name.now absent (rows_of (found_of matches.now)) }
{
    match matches.try_get_one::<u32>(name) {
        Ok(Some(number)) => Some(number),
        Ok(None) => Some(absent),
        Err(_) => None,
    }
}

/// The number of frames that was asked for, or 16 where it was not; None where what stands there is no number.
pub fn frames_in(matches: &ArgMatches<'_>) -> Option<u32>
    ensures { result ≡ frames_in (rows_of (found_of matches.now)) }
{
    number_in(matches, "frames", FRAMES)
}
