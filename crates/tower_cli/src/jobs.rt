//! The program's command line.

ghost use Rattle.std.specs.Prelude.{◌≡◌, ◌≤◌, true, false, map, option_map, codes, Some, IfOk, IfErr, IfSome};
ghost use Rattle.clap.specs.Words.{app_of, fault_of, found_of, kind_of, rows_of, rule_of, subcommand_of, takes, with_subcommand, FailsBy};
ghost use Rattle.clap.specs.declared.builder.command.Command.TheViews.{out-Command as fields_of};
ghost use Rattle.command_answers.specs.Options.{frames_option, frames_in, number_in};
ghost use Rattle.tower_cli.specs.Jobs.{tower_app, run_app, race_app, image_app, check_app, resume_app, image_flag, whole_flag, rounds_option, playable, rounds_in, race_in, asks, image_in, resume_in, job_named, job_asked, as_asked, HasRounds};

use clap::error::ErrorKind;
use clap::{Arg, ArgAction, ArgMatches, Command, Error};
use command_answers::{file_argument, file_in, frames_in, frames_option, number_in};
use std::alloc::{AllocError, Global};
use std::convert::AsStr;

/// How many rounds a race has where the command line does not say.
const ROUNDS: u32 = 100;

/// What the command line requests.
#[derive(Clone, Copy, Debug, PartialEq, Eq)]
pub enum Job<'a> {
    /// To run a script on a machine of so many frames.
    Run { frames: u32 },
    /// To write the image of version 2 of the state that a script ends in, on a machine of so many frames.
    Image { frames: u32 },
    /// To write the snapshot of the machine that a script leaves, of so many frames.
    Whole { frames: u32 },
    /// To check the image or the snapshot in a file of that name.
    Check { file: &'a str },
    /// To run a script on the machine of the image or the snapshot in a file of that name.
    Resume { file: &'a str },
    /// To run a script on such a machine, and write the image of the machine that it leaves, or its snapshot if the
    /// file has one.
    ResumeImage { file: &'a str },
    /// To play so many rounds of a race, 1 to 1000, each on a machine of so many frames.
    Race { frames: u32, rounds: u32 },
}

/// `--rounds N`.
fn rounds_option<'a>(alloc: Global) -> Arg<'a>
    ensures rule { rule_of result ≡ rounds_option }
    ensures local { result.global ≡ false }
{
    Arg::new(alloc, "rounds")
        .long("rounds")
        .value_name("N")
        .value_parser(clap::value_parser!(u32).range(1..=1000))
        .help("The rounds of a race, 1 to 1000; 100 where it is absent")
}

/// `run [--frames N]`.
fn run_command<'a>(alloc: Global) -> Result<Command<'a>, AllocError>
    ensures app { IfOk result (λ command. app_of command ≡ run_app) }
    ensures globals { IfOk result (λ command. (fields_of command).has_globals ≡ false) }
{
    Command::new(alloc, "run")
        .about("Runs a script from standard input, and writes a line for each reply")
        .arg(frames_option(alloc))
}

/// `--whole`.
fn whole_flag<'a>(alloc: Global) -> Arg<'a>
    ensures rule { rule_of result ≡ whole_flag }
    ensures local { result.global ≡ false }
{
    Arg::new(alloc, "whole")
        .long("whole")
        .action(ArgAction::SetTrue)
        .help("Writes a snapshot, with pending offers; frames may be up to 1048576")
}

/// `image [--frames N] [--whole]`.
fn image_command<'a>(alloc: Global) -> Result<Command<'a>, AllocError>
    ensures app { IfOk result (λ command. app_of command ≡ image_app) }
    ensures globals { IfOk result (λ command. (fields_of command).has_globals ≡ false) }
{
    Command::new(alloc, "image")
        .about("Runs a script from standard input, and writes the image of its last state")
        .arg(frames_option(alloc))?
        .arg(whole_flag(alloc))
}

/// `check FILE`.
fn check_command<'a>(alloc: Global) -> Result<Command<'a>, AllocError>
    ensures app { IfOk result (λ command. app_of command ≡ check_app) }
    ensures globals { IfOk result (λ command. (fields_of command).has_globals ≡ false) }
{
    Command::new(alloc, "check")
        .about("Checks an image, and writes what fails of it")
        .arg(file_argument(alloc))
}

/// `--image`.
fn image_flag<'a>(alloc: Global) -> Arg<'a>
    ensures rule { rule_of result ≡ image_flag }
    ensures local { result.global ≡ false }
{
    Arg::new(alloc, "image")
        .long("image")
        .action(ArgAction::SetTrue)
        .help("Writes the image of the last state, and no reply")
}

/// `resume [--image] FILE`.
fn resume_command<'a>(alloc: Global) -> Result<Command<'a>, AllocError>
    ensures app { IfOk result (λ command. app_of command ≡ resume_app) }
    ensures globals { IfOk result (λ command. (fields_of command).has_globals ≡ false) }
{
    Command::new(alloc, "resume")
        .about(
            "Runs a script from standard input on the machine of an image, and writes a line for each reply",
        )
        .arg(image_flag(alloc))?
        .arg(file_argument(alloc))
}

/// `race [--frames N] [--rounds N]`.
fn race_command<'a>(alloc: Global) -> Result<Command<'a>, AllocError>
    ensures app { IfOk result (λ command. app_of command ≡ race_app) }
    ensures globals { IfOk result (λ command. (fields_of command).has_globals ≡ false) }
{
    Command::new(alloc, "race")
        .about("Plays rounds of two guests in two threads, and writes the last report")
        .arg(frames_option(alloc))?
        .arg(rounds_option(alloc))
}

/// With one command more.
fn with_command<'a>(program: Command<'a>, command: Command<'a>) -> Result<Command<'a>, AllocError>
    requires program { (fields_of program).has_globals ≡ false }
    requires command { (fields_of command).has_globals ≡ false }
    ensures app { IfOk result (λ with. app_of with
        ≡ with_subcommand (app_of program.entry) (app_of command.entry).top) }
    ensures globals { IfOk result (λ with. (fields_of with).has_globals ≡ false) }
{
    program.subcommand(command)
}

/// The five commands.
fn tower_command<'a>(alloc: Global) -> Result<Command<'a>, AllocError>
    ensures app { IfOk result (λ command. app_of command ≡ tower_app) }
    ensures globals { IfOk result (λ command. (fields_of command).has_globals ≡ false) }
    ensures required { IfOk result (λ command. (fields_of command).subcommand_required ≡ true) }
{
    let tower = Command::new(alloc, "tower");
    let tower = with_command(tower, run_command(alloc)?)?;
    let tower = with_command(tower, race_command(alloc)?)?;
    let tower = with_command(tower, image_command(alloc)?)?;
    let tower = with_command(tower, check_command(alloc)?)?;
    let tower = with_command(tower, resume_command(alloc)?)?;
    Ok(tower.subcommand_required(true))
}

/// A number of rounds that may be played; None for any other.
fn playable(rounds: u32) -> Option<u32>
    ensures value { result ≡ playable rounds }
    ensures bounds { IfSome result (λ n. (1 ≤ n) × (n ≤ 1000)) }
{
    if 1 <= rounds && rounds <= 1000 {
        Some(rounds)
    } else {
        None
    }
}

/// The race that was asked for.
fn race_in<'a>(matches: &ArgMatches<'a>) -> Option<Job<'a>>
    ensures job { option_map as_asked result ≡ race_in (rows_of (found_of matches.now)) }
    ensures rounds { IfSome result HasRounds }
{
    let frames = frames_in(matches)?;
    let rounds = playable(number_in(matches, "rounds", ROUNDS)?)?;
    Some(Job::Race { frames, rounds })
}

/// Whether the flag of that name is among the arguments.
fn asks(matches: &ArgMatches<'_>, name: &str) -> bool
    ensures { result ≡ asks name.now (rows_of (found_of matches.now)) }
{
    match matches.get_str(name) {
        Some(text) => text == "true",
        None => false,
    }
}

/// A run for the image of its last state, of version 2, or with `--whole` for its snapshot.
fn image_in<'a>(matches: &ArgMatches<'a>) -> Option<Job<'a>>
    ensures job { option_map as_asked result ≡ image_in (rows_of (found_of matches.now)) }
    ensures rounds { IfSome result HasRounds }
{
    let frames = frames_in(matches)?;
    if asks(matches, "whole") {
        Some(Job::Whole { frames })
    } else {
        Some(Job::Image { frames })
    }
}

/// A run on the machine of an image, for its replies or for the image of its last state.
fn resume_in<'a>(matches: &ArgMatches<'a>) -> Job<'a>
    ensures job { as_asked result ≡ resume_in (rows_of (found_of matches.now)) }
    ensures rounds { HasRounds result }
{
    let file = file_in(matches);
    if asks(matches, "image") {
        Job::ResumeImage { file }
    } else {
        Job::Resume { file }
    }
}

/// The job of the subcommand of that name, by the arguments after it.
fn job_named<'a>(name: &str, matches: &ArgMatches<'a>) -> Option<Job<'a>>
    ensures job { option_map as_asked result ≡ job_named name.now (rows_of (found_of matches.now)) }
    ensures rounds { IfSome result HasRounds }
{
    match name {
        "run" => {
            let frames = frames_in(matches)?;
            Some(Job::Run { frames })
        }
        "race" => race_in(matches),
        "image" => image_in(matches),
        "check" => {
            let file = file_in(matches);
            Some(Job::Check { file })
        }
        "resume" => Some(resume_in(matches)),
        _ => None,
    }
}

/// Returns the job that the arguments request, of which the first is the program's name. `clap` refuses all others,
/// with its own text; so it does a call for help.
pub fn job_of<'a, S: AsStr>(alloc: Global, words: &'a [S]) -> Result<Job<'a>, Error>
    // Ok comes only if `clap` finds no fault in the arguments. An error is OutOfMemory, or of a kind that `clap` finds.
    ensures fails { FailsBy (fault_of tower_app (map S.text words.now)) result }
    ensures job { IfOk result (λ job. job_asked (subcommand_of tower_app (map S.text words.now))
        ≡ Some (as_asked job)) }
    ensures rounds { IfOk result HasRounds }
    // Arguments that `clap` accepts are refused only if memory runs out.
    ensures taken { IfErr result (λ error. takes tower_app (map S.text words.now) ≡ true
        → kind_of error ≡ ErrorKind.OutOfMemory) }
{
    let matches = tower_command(alloc)?.try_get_matches_from(words)?;
    let Some((name, found)) = matches.subcommand() else {
        unreachable!();
    };
    let Some(job) = job_named(name, found) else {
        unreachable!();
    };
    Ok(job)
}
