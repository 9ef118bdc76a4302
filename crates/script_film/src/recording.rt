//! A film while it is made: the core after the lines so far, its image, and the rows of these lines.

ghost use Rattle.std.specs.Prelude.{◌≡◌, ℕ, ◌≤◌, ◌++◌, [], List, IfOk, IfErr, OnOk};
ghost use Rattle.kernel_calls.specs.Machine.{answer, next};
ghost use Rattle.memory_image.specs.Sound.{StandsFor};
ghost use Rattle.script_run.specs.declared.lines.Line.TheVariants as line;
ghost use Rattle.script_run.specs.Lines.{line_of};
ghost use Rattle.script_film.specs.Film.{IsRefused, event_rows};
ghost use Rattle.script_film.specs.Recordings.{Records, Follows};

use crate::changes::push_changes;
use crate::rows::{push_line, push_reply};
use kernel_calls::{Core, Event};
use memory_image::Image;
use script_run::{Line, ScriptFault, line_of};
use std::alloc::Global;

/// The most events that a film shows.
const MOST_EVENTS: u32 = 2000;

/// A film while it is made.
#[derive(Drop)]
pub(crate) struct Recording {
    /// The machine, after the lines so far.
    pub core: Core,
    /// Its image.
    pub image: Image,
    /// How many events the lines so far asked for.
    pub events: u32,
    /// Their rows.
    pub rows: Vec<u8>,
}

/// The result of recording a line.
#[derive(Clone, Copy, Debug, PartialEq, Eq)]
pub(crate) enum Shot {
    /// Its rows were recorded.
    Told,
    /// It is malformed.
    Malformed,
    /// It is an event beyond the most that a film shows.
    TooMany,
}

/// The image of a core.
fn image_of(alloc: Global, core: &Core) -> Result<Image, ScriptFault>
    ensures stands { IfOk result (λ image. StandsFor image core.now.state) }
    ensures fault { IfErr result (λ fault. fault ≡ ScriptFault.NoMemory) }
{
    match Image::of(alloc, core) {
        Ok(image) => Ok(image),
        Err(_) => Err(ScriptFault::NoMemory),
    }
}

/// Carries out an event, and writes the rows of its line, the reply and what it changes.
#[tactic(auto, unfolding(crate::specs::Film::event_rows))]
fn tell_event(
    alloc: Global,
    core: &mut Core,
    image: &mut Image,
    rows: &mut Vec<u8>,
    bytes: &[u8],
    event: &Event,
) -> Result<(), ScriptFault>
    ensures state { OnOk result (core.new.state ≡ next core.old.state event.now) }
    ensures stands { OnOk result (StandsFor image.new (next core.old.state event.now)) }
    ensures rows { OnOk result (rows.new.items ≡ rows.old.items ++ event_rows bytes.now
        (answer core.old.state event.now) image.old image.new) }
    ensures fault { IfErr result (λ fault. fault ≡ ScriptFault.NoMemory) }
{
    let reply = core.step(event);
    let after = image_of(alloc, core)?;
    push_line(rows, bytes)?;
    push_reply(rows, &reply)?;
    push_changes(rows, Some(image), &after)?;
    *image = after;
    Ok(())
}

impl Recording {
    /// The film of no line yet, of a machine of so many frames as it boots.
    pub fn begin(alloc: Global, frames: u32) -> Result<Recording, ScriptFault>
        ensures records { IfOk result (λ recording. Records frames [] recording) }
        ensures events { IfOk result (λ recording. recording.events ≡ 0) }
        ensures fault { IfErr result (λ fault. (script : List ℕ) → IsRefused fault frames script) }
    {
        let core = Core::boot(alloc, frames)?;
        let image = image_of(alloc, &core)?;
        let mut rows = Vec::new(alloc);
        push_changes(&mut rows, None, &image)?;
        Ok(Recording {
            core,
            image,
            events: 0,
            rows,
        })
    }

    /// Takes the event of a line, if the film has room for it.
    fn take_event(
        &mut self,
        alloc: Global,
        bytes: &[u8],
        event: &Event,
    ) -> Result<Shot, ScriptFault>
        requires { self.old.events ≤ 2000 }
        ensures events { OnOk result (self.new.events ≤ 2000) }
        ensures follows { (frames : ℕ) (lines : List (List ℕ)) → Records frames lines self.old
            → line_of bytes.now ≡ line.Event event.now
            → IfOk result (λ shot. Follows shot frames lines bytes.now self.new) }
        ensures fault { IfErr result (λ fault. fault ≡ ScriptFault.NoMemory) }
    {
        if self.events == MOST_EVENTS {
            return Ok(Shot::TooMany);
        }
        tell_event(
            alloc,
            &mut self.core,
            &mut self.image,
            &mut self.rows,
            bytes,
            event,
        )?;
        self.events += 1;
        Ok(Shot::Told)
    }

    /// Takes the next line.
    pub fn take_line(&mut self, alloc: Global, bytes: &[u8]) -> Result<Shot, ScriptFault>
        requires { self.old.events ≤ 2000 }
        ensures events { OnOk result (self.new.events ≤ 2000) }
        ensures follows { (frames : ℕ) (lines : List (List ℕ)) → Records frames lines self.old
            → IfOk result (λ shot. Follows shot frames lines bytes.now self.new) }
        ensures fault { IfErr result (λ fault. fault ≡ ScriptFault.NoMemory) }
    {
        match line_of(bytes) {
            Line::Malformed => Ok(Shot::Malformed),
            Line::Skipped => {
                push_line(&mut self.rows, bytes)?;
                Ok(Shot::Told)
            }
            Line::Event(event) => self.take_event(alloc, bytes, &event),
        }
    }
}
