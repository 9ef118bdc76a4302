//! How often each frame is named as a table, and mapped as a page.

ghost use Rattle.std.specs.Prelude.{◌≡◌, ◌*◌, ◌<◌, None, if◌then◌else◌, length, slice_index};
ghost use Rattle.page_words.specs.Words.{is_present};
ghost use Rattle.page_map.specs.Pages.{counted};
ghost use Rattle.address_space.specs.ImageWords.{own_frame};
ghost use Rattle.image_check.specs.Counts.{is_this};
ghost use Rattle.image_check.specs.Adds.{Adds, HaveRoom, MayGrow};

use crate::kernel_words::own_frame;
use memory_image::ImageRef;
use page_words::{Frame, Pid, TableWord};

/// Adds so many to the count of a frame, where there is one, and it is counted.
#[tactic(auto, using(crate::proofs::AddLemmas::adds_more, crate::proofs::AddLemmas::adds_past, crate::proofs::AddLemmas::adds_none))]
pub fn count_more(counts: &mut [u32], frame: Option<Frame>, times: u32)
    requires { MayGrow counts.old (λ f. times * counted (is_this f frame)) }
    ensures { Adds counts.old counts.new (λ f. times * counted (is_this f frame)) }
{
    if let Some(frame) = frame {
        let place = frame.0 as usize;
        if place < counts.len() {
            counts[place] += times;
        }
    }
}

/// Adds one to the count of a frame, where there is one, and it is counted.
#[tactic(auto, using(crate::proofs::AddLemmas::once, crate::proofs::AddLemmas::room_once))]
pub fn count_one(counts: &mut [u32], frame: Option<Frame>)
    requires { HaveRoom counts.old 1 }
    ensures { Adds counts.old counts.new (λ f. counted (is_this f frame)) }
{
    count_more(counts, frame, 1);
}

/// The frame of its own that a word of a table names, where it is present.
pub fn frame_named(image: &ImageRef<'_>, word: u32) -> Option<Frame>
    ensures { result ≡ (if is_present word then own_frame image.now.version word else None) }
{
    if TableWord::read(word).present() {
        own_frame(image.version(), word)
    } else {
        None
    }
}

/// The process of a number below 64.
pub fn pid_of(number: u8) -> Pid
    requires { number < 64 }
    ensures { result ≡ number }
{
    Pid::new(number).unwrap()
}
