//! The race: rounds of two guests, and what is written of all of them.

ghost use Rattle.std.specs.Prelude.{◌≡◌, ◌≤◌, ◌↔◌, IfOk, IfErr, IsErrOf, OnOk, OnErr};
ghost use Rattle.std.specs.Io.KnownBytes.{Appends};
ghost use Rattle.guest_race.specs.Asked.{IsAsked};
ghost use Rattle.tower_jobs.specs.Races.{Raced, Writes, EndsRace, fault_of_round, race_heading, race_text};
ghost use Rattle.text_output.specs.Output.{AppendsFront};

use arrayvec::ArrayVec;
use command_answers::ToolFault;
use guest_race::{Referee, RoundFault, round_by};
use memory_report::Report;
use page_words::is_frame_count;
use std::alloc::Global;
use std::io::Write;
use std::sync::Wait;
use std::thread::Threads;
use text_output::{WriteFailed, push_number, push_word, write_whole};

/// Room for the lines before the report.
const ROOM: usize = 64;

/// What ends a round early ends the race.
fn fault_of_round(fault: RoundFault) -> ToolFault
    ensures { result ≡ fault_of_round fault }
{
    match fault {
        RoundFault::NoMemory => ToolFault::NoMemory,
        RoundFault::Turns => ToolFault::RaceTurns,
        RoundFault::Failed => ToolFault::RaceFailed,
    }
}

/// Plays so many rounds, each on a kernel of its own, and each by the referee. The report of the last one.
fn play<R: Threads + Wait + Sync, F: Referee>(
    rt: &R,
    alloc: Global,
    frames: u32,
    rounds: u32,
    referee: &mut F,
) -> Result<Report, RoundFault>
    requires { 1 ≤ rounds }
    ensures { IfOk result (Raced (IsAsked F.reported F.judged) referee.old referee.new frames rounds) }
{
    let mut report = round_by(rt, alloc, frames, referee)?;
    for played in 1..rounds {
        report = round_by(rt, alloc, frames, referee)?;
    }
    Ok(report)
}

/// The lines before the report.
#[tactic(auto, unfolding(crate::specs::Races::race_heading))]
fn heading(rounds: u32) -> ArrayVec<u8, ROOM>
    ensures { result.items ≡ race_heading rounds }
{
    let mut text = ArrayVec::new();
    push_number(&mut text, "rounds ", rounds);
    push_word(&mut text, "\nhistory legal\nreport equal\nverdict sound\n");
    text
}

/// Writes what is said of so many rounds.
#[tactic(auto, unfolding(crate::specs::Races::race_text))]
fn write_race<W: Write>(writer: &mut W, rounds: u32, report: &Report) -> Result<(), WriteFailed>
    ensures ok { OnOk result (Appends (W.contents writer.old) (W.contents writer.new) (race_text rounds report.now)) }
    ensures err { OnErr result (AppendsFront (W.contents writer.old) (W.contents writer.new)
        (race_text rounds report.now)) }
{
    write_whole(writer, heading(rounds).as_slice())?;
    report.write_text(writer)
}

/// Plays `rounds` rounds of a race, at least one, each on a freshly booted kernel of `frames` frames. Then writes that
/// all histories were legal, all reports equal and all images sound, and the report of the last round. In each round
/// the referee questions a monitor for its report, and then an audit for its verdict; the report written is the last
/// monitor's. It may wait, as each round's threads do.
///
/// `BadSize` comes where there are not 16 to 4,096 frames. Then the first round that ends early ends the
/// race: `NoMemory` where memory runs out, else `RaceTurns` where a guest ran out of turns, else
/// `RaceFailed`. Nothing is written before all rounds are done. `WriteFailed` comes last, and what was
/// written is then a front of the text.
pub fn race<R: Threads + Wait + Sync, W: Write, F: Referee>(
    rt: &R,
    alloc: Global,
    writer: &mut W,
    frames: u32,
    rounds: u32,
    referee: &mut F,
) -> Result<(), ToolFault>
    requires { 1 ≤ rounds }
    ensures size { IsErrOf result ToolFault.BadSize ↔ (16 ≤ frames → frames ≤ 4096 → ⊥) }
    ensures text { OnOk result (Writes (Raced (IsAsked F.reported F.judged) referee.old referee.new frames rounds)
        rounds (W.contents writer.old) (W.contents writer.new)) }
    ensures fault { IfErr result (λ fault. EndsRace
        (Raced (IsAsked F.reported F.judged) referee.old referee.new frames rounds) rounds fault
        (W.contents writer.old) (W.contents writer.new)) }
{
    if !is_frame_count(frames) {
        return Err(ToolFault::BadSize);
    }
    let report = match play(rt, alloc, frames, rounds, referee) {
        Ok(report) => report,
        Err(fault) => return Err(fault_of_round(fault)),
    };
    write_race(writer, rounds, &report)?;
    Ok(())
}
