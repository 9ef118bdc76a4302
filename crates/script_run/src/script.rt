//! A script's run, from its bytes to the bytes of its replies.

ghost use Rattle.std.specs.Prelude.{◌≡◌, ◌≢◌, ℕ, ◌≤◌, ◌↔◌, IsErrOf, IfOk, IfErr, OnOk, IfSome, None, Some};
ghost use Rattle.std.specs.Io.KnownBytes.{Appends};
ghost use Rattle.process_table.specs.State.{open_with};
ghost use Rattle.kernel_calls.specs.Machine.{end_of};
ghost use Rattle.script_run.specs.Script.{events_of, fault_of, replies_text};
ghost use Rattle.script_run.specs.Progress.{EndsBy, MayEnd};
ghost use Rattle.script_run.specs.WorkedScripts.{second_line_malformed, reply_to_the_first};

use super::faults::ScriptFault;
use super::session::Session;
use super::takers::Nowhere;
use kernel_calls::Core;
use std::alloc::Global;
use std::io::{Read, Write};

/// The bytes of a read.
const BLOCK: usize = 65_536;

/// Runs a script on a machine of so many frames: carries out its events, writes a line for each
/// reply, and hands back the machine. Reads and writes go in blocks, and all memory is taken before
/// the first read. The replies to what was read are written before the next read, which may wait.
///
/// `BadSize` comes if there are not 16 to 4,096 frames, and `NoMemory` if memory runs out, both before anything is read
/// or written. After that, the first that occurs decides. `Malformed` has the line's number, and `TooLong` comes if a
/// byte follows the first 16,777,216. `ReadFailed` comes if a read answers an error, `WriteFailed` if a write does or
/// takes no byte. The replies to the events before are written, or after `WriteFailed` a prefix of them.
pub fn run_script<R: Read, W: Write>(
    alloc: Global,
    reader: &mut R,
    writer: &mut W,
    frames: u32,
) -> Result<Core, ScriptFault>
    ensures size { IsErrOf result ScriptFault.BadSize ↔ (16 ≤ frames → frames ≤ 4096 → ⊥) }

    // Where the reader tells what it had left, that is the script.
    ensures whole { OnOk result (IfSome (R.remaining reader.old) (λ input. fault_of input ≡ None)) }
    ensures state { IfOk result (λ core. IfSome (R.remaining reader.old)
        (λ input. core.state ≡ end_of (open_with frames) (events_of input))) }
    ensures replies { OnOk result (IfSome (R.remaining reader.old)
        (λ input. Appends (W.contents writer.old) (W.contents writer.new)
        (replies_text (open_with frames) (events_of input)))) }
    ensures fault { IfErr result (λ fault. EndsBy (open_with frames) fault (R.remaining reader.old)
        (R.remaining reader.new) (W.contents writer.old) (W.contents writer.new)) }
{
    let mut session = Session::boot(alloc, frames)?;
    let mut block = vec![in alloc; 0u8; BLOCK]?;
    session.run(reader, block.as_mut_slice(), writer)?;
    Ok(session.core)
}

/// Runs a script on a machine as it stands, as `run_script` does on one that is booted: it carries out the script's
/// events, writes a line for each reply, and hands back the machine.
///
/// The faults are those of `run_script`, except `BadSize`.
pub fn resume_script<R: Read, W: Write>(
    alloc: Global,
    core: Core,
    reader: &mut R,
    writer: &mut W,
) -> Result<Core, ScriptFault>
    ensures whole { OnOk result (IfSome (R.remaining reader.old) (λ input. fault_of input ≡ None)) }
    ensures state { IfOk result (λ after. IfSome (R.remaining reader.old)
        (λ input. after.state ≡ end_of core.state (events_of input))) }
    ensures replies { OnOk result (IfSome (R.remaining reader.old)
        (λ input. Appends (W.contents writer.old) (W.contents writer.new)
        (replies_text core.state (events_of input)))) }
    ensures fault { IfErr result (λ fault. EndsBy core.state fault (R.remaining reader.old) (R.remaining reader.new)
        (W.contents writer.old) (W.contents writer.new)) }
    ensures size { IfErr result (λ fault. fault ≢ ScriptFault.BadSize) }
{
    let mut session = Session::of_core(alloc, core)?;
    let mut block = vec![in alloc; 0u8; BLOCK]?;
    session.run(reader, block.as_mut_slice(), writer)?;
    Ok(session.core)
}

/// Runs a script on a machine as it stands, for the machine that it leaves: it carries out the script's events, and
/// hands back the machine. The replies are dropped.
///
/// The faults are those of `resume_script`, except `WriteFailed`.
pub fn follow_script<R: Read>(
    alloc: Global,
    core: Core,
    reader: &mut R,
) -> Result<Core, ScriptFault>
    ensures whole { OnOk result (IfSome (R.remaining reader.old) (λ input. fault_of input ≡ None)) }
    ensures state { IfOk result (λ after. IfSome (R.remaining reader.old)
        (λ input. after.state ≡ end_of core.state (events_of input))) }
    ensures fault { IfErr result (λ fault. EndsBy core.state fault (R.remaining reader.old) (R.remaining reader.new)
        None None) }
    ensures size { IfErr result (λ fault. fault ≢ ScriptFault.BadSize) }
    ensures fails { IfErr result (MayEnd ⊥) }
{
    let mut session = Session::of_core(alloc, core)?;
    let mut block = vec![in alloc; 0u8; BLOCK]?;
    session.run(reader, block.as_mut_slice(), &mut Nowhere)?;
    Ok(session.core)
}

/// What a script means whose second line is malformed, computed from the definitions: that line is its
/// fault, and only the first line has a reply. It computes nothing.
pub fn malformed_line_ends_a_script()
    ensures fault { fault_of second_line_malformed ≡ Some (ScriptFault.Malformed 2) }
    ensures replies { replies_text (open_with 16) (events_of second_line_malformed) ≡ reply_to_the_first }
{}
