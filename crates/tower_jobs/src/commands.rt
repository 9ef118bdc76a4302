//! The jobs, each with the answer that comes of it.

ghost use Rattle.std.specs.Prelude.{◌≡◌, ◌≤◌, true, false, IfOk, IfErr, map};
ghost use Rattle.command_answers.specs.Files.{IsOf};
ghost use Rattle.guest_race.specs.Asked.{IsAsked};
ghost use Rattle.tower_jobs.specs.Answers.{AnswersWords, ChecksFile, ChecksNamed, ChecksPlain, ChecksStored, DoesJob, HasCore, HasCoreAs, HasNamedCore, HasNoCore, ImagesAs, ImagesFile, ImagesResumed, ImagesScript, ImagesWhole, LacksAs, LacksNamedCore, PlaysRace, RefusesSize, ResumesFile, ResumesScript, RunsScript, StoresScript};
ghost use Rattle.tower_jobs.specs.Races.{Raced};
ghost use Rattle.tower_cli.specs.Jobs.{HasRounds, as_asked};

use crate::races::race;
use command_answers::{Answer, Opens, ToolFault, bytes_of, front_of, refuse, says_whole};
use guest_race::Referee;
use kernel_calls::Core;
use script_run::{resume_script, run_script};
use std::alloc::Global;
use std::convert::AsStr;
use std::io::{Read, Write};
use std::sync::Wait;
use std::thread::Threads;
use tower_cli::{
    Job, check_bytes, check_whole, job_of, restore_bytes, restore_whole, write_resumed_image,
    write_resumed_whole, write_script_image, write_script_whole,
};

/// Runs a script on a machine of so many frames, and writes its replies.
fn run_replies<I: Read, O: Write>(
    alloc: Global,
    input: &mut I,
    output: &mut O,
    frames: u32,
) -> Answer
    ensures size { RefusesSize ToolFault.BadSize 4096 frames result }
    ensures runs { RunsScript frames result (I.remaining input.old) (I.remaining input.new) (O.contents output.old)
        (O.contents output.new) }
{
    match run_script(alloc, input, output, frames) {
        Ok(_) => Answer::Done,
        Err(fault) => Answer::Failed(ToolFault::from(fault)),
    }
}

/// Runs a script on a machine of so many frames, and writes the image of version 2 of its last state.
fn write_image_of<I: Read, O: Write>(
    alloc: Global,
    input: &mut I,
    output: &mut O,
    frames: u32,
) -> Answer
    ensures size { RefusesSize ToolFault.BadSize 4096 frames result }
    ensures images { ImagesScript frames result (I.remaining input.old) (I.remaining input.new)
        (O.contents output.old) (O.contents output.new) }
{
    match write_script_image(alloc, input, output, frames) {
        Ok(()) => Answer::Done,
        Err(fault) => Answer::Failed(ToolFault::from(fault)),
    }
}

/// Runs a script on a machine of so many frames, and writes the snapshot of the machine that it leaves.
fn write_whole_of<I: Read, O: Write>(
    alloc: Global,
    input: &mut I,
    output: &mut O,
    frames: u32,
) -> Answer
    ensures size { RefusesSize ToolFault.BadWideSize 1048576 frames result }
    ensures stores { StoresScript frames result (I.remaining input.old) (I.remaining input.new)
        (O.contents output.old) (O.contents output.new) }
{
    match write_script_whole(alloc, input, output, frames) {
        Ok(()) => Answer::Done,
        Err(fault) => Answer::Failed(fault),
    }
}

/// Checks the image of version 1 or 2 that a file has, and writes the verdict on it. Of the file no more is read than
/// one byte more than the largest such image has.
fn check_plain<F: Read + Drop, O: Write>(alloc: Global, file: F, output: &mut O) -> Answer
    ensures { ChecksPlain result (F.remaining file) (O.contents output.old) (O.contents output.new) }
{
    let bytes = match bytes_of(alloc, file) {
        Ok(bytes) => bytes,
        Err(fault) => return Answer::Failed(fault),
    };
    match check_bytes(alloc, bytes.as_slice(), output) {
        Ok(true) => Answer::Done,
        Ok(false) => Answer::NotSound,
        Err(fault) => Answer::Failed(fault),
    }
}

/// Checks the snapshot that a file has, piece by piece, and writes the verdict on it.
fn check_stored<F: Read, O: Write>(alloc: Global, file: &mut F, output: &mut O) -> Answer
    ensures { ChecksStored result (F.remaining file.old) (O.contents output.old) (O.contents output.new) }
{
    match check_whole(alloc, file, output) {
        Ok(true) => Answer::Done,
        Ok(false) => Answer::NotSound,
        Err(fault) => Answer::Failed(fault),
    }
}

/// Checks the image or the snapshot that a file has, as its first bytes say, and writes the verdict on it.
fn check_file<F: Read + Drop, O: Write>(alloc: Global, file: F, output: &mut O) -> Answer
    ensures { ChecksFile result (F.remaining file) (O.contents output.old) (O.contents output.new) }
{
    let mut file = file;
    let front = match front_of(&mut file) {
        Ok(front) => front,
        Err(fault) => return Answer::Failed(fault),
    };
    let mut content = front.as_slice().chain(file);
    if says_whole(front.as_slice()) {
        check_stored(alloc, &mut content, output)
    } else {
        check_plain(alloc, content, output)
    }
}

/// Checks the image in the file of that name; ReadFailed where it can't be opened.
fn check_named<R: AllocGlobal + Opens, O: Write>(rt: &R, name: &str, output: &mut O) -> Answer
    ensures { ChecksNamed (IsOf R.Opened.remaining R.named name.now) result (O.contents output.old)
        (O.contents output.new) }
{
    match rt.open_named(name) {
        Ok(file) => check_file(rt.alloc(), file, output),
        Err(_) => Answer::Failed(ToolFault::ReadFailed),
    }
}

/// A core that came of an image.
#[derive(Drop)]
struct Resumed {
    core: Core,
    /// Whether the file has a snapshot.
    whole: bool,
}

/// The core of the image of version 1 or 2 that a file has, or why there is none. Of the file no more is read than one
/// byte more than the largest such image has.
fn plain_core<F: Read + Drop>(alloc: Global, file: F) -> Result<Resumed, Answer>
    ensures core { IfOk result (λ resumed. HasCoreAs resumed.whole (F.remaining file) resumed.core) }
    ensures plain { IfOk result (λ resumed. resumed.whole ≡ false) }
    ensures none { IfErr result (LacksAs false (F.remaining file)) }
{
    let bytes = match bytes_of(alloc, file) {
        Ok(bytes) => bytes,
        Err(fault) => return Err(Answer::Failed(fault)),
    };
    match restore_bytes(alloc, bytes.as_slice()) {
        Ok(Some(core)) => Ok(Resumed { core, whole: false }),
        Ok(None) => Err(Answer::NotSound),
        Err(fault) => Err(Answer::Failed(fault)),
    }
}

/// The core of the snapshot that a file has, with its offers, or why there is none.
fn stored_core<F: Read>(alloc: Global, file: &mut F) -> Result<Resumed, Answer>
    ensures core { IfOk result (λ resumed. HasCoreAs resumed.whole (F.remaining file.old) resumed.core) }
    ensures whole { IfOk result (λ resumed. resumed.whole ≡ true) }
    ensures none { IfErr result (LacksAs true (F.remaining file.old)) }
{
    match restore_whole(alloc, file) {
        Ok(Some(core)) => Ok(Resumed { core, whole: true }),
        Ok(None) => Err(Answer::NotSound),
        Err(fault) => Err(Answer::Failed(fault)),
    }
}

/// The core of the image or the snapshot that a file has, as its first bytes say, or why there is none.
fn core_in<F: Read + Drop>(alloc: Global, file: F) -> Result<Resumed, Answer>
    ensures core { IfOk result (λ resumed. HasCore resumed.whole (F.remaining file) resumed.core) }
    ensures none { IfErr result (HasNoCore (F.remaining file)) }
{
    let mut file = file;
    let front = match front_of(&mut file) {
        Ok(front) => front,
        Err(fault) => return Err(Answer::Failed(fault)),
    };
    let mut content = front.as_slice().chain(file);
    if says_whole(front.as_slice()) {
        stored_core(alloc, &mut content)
    } else {
        plain_core(alloc, content)
    }
}

/// The core of the image in the file of that name; ReadFailed where it can't be opened.
fn core_named<R: AllocGlobal + Opens>(rt: &R, name: &str) -> Result<Resumed, Answer>
    ensures core { IfOk result (λ resumed. HasNamedCore (IsOf R.Opened.remaining R.named name.now) resumed.whole
        resumed.core) }
    ensures none { IfErr result (LacksNamedCore (IsOf R.Opened.remaining R.named name.now)) }
{
    match rt.open_named(name) {
        Ok(file) => core_in(rt.alloc(), file),
        Err(_) => Err(Answer::Failed(ToolFault::ReadFailed)),
    }
}

/// Runs a script on a core, and writes its replies.
fn resume_replies<I: Read, O: Write>(
    alloc: Global,
    core: Core,
    input: &mut I,
    output: &mut O,
) -> Answer
    ensures { ResumesScript core.state result (I.remaining input.old) (I.remaining input.new) (O.contents output.old)
        (O.contents output.new) }
{
    match resume_script(alloc, core, input, output) {
        Ok(_) => Answer::Done,
        Err(fault) => Answer::Failed(ToolFault::from(fault)),
    }
}

/// Runs a script on a core, and writes the image of version 2 of its last state.
fn resume_plain<I: Read, O: Write>(
    alloc: Global,
    core: Core,
    input: &mut I,
    output: &mut O,
) -> Answer
    ensures { ImagesResumed core.state result (I.remaining input.old) (I.remaining input.new) (O.contents output.old)
        (O.contents output.new) }
{
    match write_resumed_image(alloc, core, input, output) {
        Ok(()) => Answer::Done,
        Err(fault) => Answer::Failed(ToolFault::from(fault)),
    }
}

/// Runs a script on a core, and writes the snapshot of the machine that it leaves.
fn resume_stored<I: Read, O: Write>(
    alloc: Global,
    core: Core,
    input: &mut I,
    output: &mut O,
) -> Answer
    ensures { ImagesWhole core.state result (I.remaining input.old) (I.remaining input.new) (O.contents output.old)
        (O.contents output.new) }
{
    match write_resumed_whole(alloc, core, input, output) {
        Ok(()) => Answer::Done,
        Err(fault) => Answer::Failed(ToolFault::from(fault)),
    }
}

/// Runs a script on a core that came of a file, and writes a snapshot or an image, as the file has one.
fn resume_image<I: Read, O: Write>(
    alloc: Global,
    resumed: Resumed,
    input: &mut I,
    output: &mut O,
) -> Answer
    ensures { ImagesAs resumed.whole resumed.core.state result (I.remaining input.old) (I.remaining input.new)
        (O.contents output.old) (O.contents output.new) }
{
    if resumed.whole {
        resume_stored(alloc, resumed.core, input, output)
    } else {
        resume_plain(alloc, resumed.core, input, output)
    }
}

/// Runs a script on the machine of the image in the file of that name, and writes its replies.
fn resume_named<R: AllocGlobal + Opens, I: Read, O: Write>(
    rt: &R,
    name: &str,
    input: &mut I,
    output: &mut O,
) -> Answer
    ensures { ResumesFile (IsOf R.Opened.remaining R.named name.now) result (I.remaining input.old)
        (I.remaining input.new) (O.contents output.old) (O.contents output.new) }
{
    match core_named(rt, name) {
        Ok(resumed) => resume_replies(rt.alloc(), resumed.core, input, output),
        Err(answer) => answer,
    }
}

/// Runs a script on such a machine, and writes the image of the machine that it leaves, or its snapshot if the file has
/// one.
fn image_named<R: AllocGlobal + Opens, I: Read, O: Write>(
    rt: &R,
    name: &str,
    input: &mut I,
    output: &mut O,
) -> Answer
    ensures { ImagesFile (IsOf R.Opened.remaining R.named name.now) result (I.remaining input.old)
        (I.remaining input.new) (O.contents output.old) (O.contents output.new) }
{
    match core_named(rt, name) {
        Ok(resumed) => resume_image(rt.alloc(), resumed, input, output),
        Err(answer) => answer,
    }
}

/// Plays so many rounds of a race with a referee, at least one, and writes what is said of them. It may wait.
fn play_race<R: AllocGlobal + Threads + Wait + Sync, O: Write, F: Referee>(
    rt: &R,
    output: &mut O,
    frames: u32,
    rounds: u32,
    referee: &mut F,
) -> Answer
    requires { 1 ≤ rounds }
    ensures size { RefusesSize ToolFault.BadSize 4096 frames result }
    ensures plays { PlaysRace (Raced (IsAsked F.reported F.judged) referee.old referee.new) frames rounds result
        (O.contents output.old) (O.contents output.new) }
{
    match race(rt, rt.alloc(), output, frames, rounds, referee) {
        Ok(()) => Answer::Done,
        Err(fault) => Answer::Failed(fault),
    }
}

/// Does a job: a script is read from `input`, and what the job gives is written to `output`. A race is played with
/// the referee, and may wait.
fn answer_job<R: AllocGlobal + Opens + Threads + Wait + Sync, I: Read, O: Write, F: Referee>(
    rt: &R,
    job: Job<'_>,
    input: &mut I,
    output: &mut O,
    referee: &mut F,
) -> Answer
    requires { HasRounds job }
    ensures { DoesJob (IsOf R.Opened.remaining R.named) (Raced (IsAsked F.reported F.judged) referee.old referee.new)
        (as_asked job.entry) result (I.remaining input.old) (I.remaining input.new) (O.contents output.old)
        (O.contents output.new) }
{
    match job {
        Job::Run { frames } => run_replies(rt.alloc(), input, output, frames),
        Job::Image { frames } => write_image_of(rt.alloc(), input, output, frames),
        Job::Whole { frames } => write_whole_of(rt.alloc(), input, output, frames),
        Job::Check { file } => check_named(rt, file, output),
        Job::Resume { file } => resume_named(rt, file, input, output),
        Job::ResumeImage { file } => image_named(rt, file, input, output),
        Job::Race { frames, rounds } => play_race(rt, output, frames, rounds, referee),
    }
}

/// Does what the arguments request, of which the first is the program's name. Only a run of a script reads `input`. A
/// race is played with the referee, which asks in each round, and may wait. A check or a resume opens the file that is
/// named.
pub fn answer<
    R: AllocGlobal + Opens + Threads + Wait + Sync,
    S: AsStr,
    I: Read,
    O: Write,
    F: Referee,
>(rt: &R, words: &[S], input: &mut I, output: &mut O, referee: &mut F) -> Answer
    ensures { AnswersWords (IsOf R.Opened.remaining R.named)
        (Raced (IsAsked F.reported F.judged) referee.old referee.new) (map S.text words.now) result
        (I.remaining input.old) (I.remaining input.new) (O.contents output.old) (O.contents output.new) }
{
    match job_of(rt.alloc(), words) {
        Ok(job) => answer_job(rt, job, input, output, referee),
        Err(error) => refuse(error),
    }
}
