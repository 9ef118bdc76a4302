//! Where the core lies while no CPU has it, and where reports lie that monitors read.

ghost use Rattle.std.specs.Prelude.{◌≡◌, ◌≢◌, ◌<◌, ◌≤◌, All, IfErr, IfOk, IfSome, vec_len};
ghost use Rattle.counted_slot.specs.Counting.{readers};
ghost use Rattle.core_handover.specs.Rooms.{IsHeld, IsOf};

use crate::history::{Beginning, Front, Head};
use crate::page::{Page, Sheet};
use counted_slot::{Counted, FREE, Fits, MARKED, MOST_READERS, ONE_READER, PRESENT, TAKEN};
use kernel_calls::Core;
use std::alloc::{AllocError, Global};
use std::sync::Arc;
use std::sync::atomic::AtomicU64;
use std::sync::atomic::Ordering::SeqCst;

/// How often a monitor looks for a page. It looks again only if others came between.
const LOOKS: u32 = 64;

/// What is passed on with the core: the word that counts what is added to the history, and a page that no monitor
/// reads.
#[derive(Drop)]
pub(crate) struct Rest {
    pub head: Head,
    pub spare: Sheet,
}

/// The core, all of its history, and what is passed on with it.
#[derive(Drop)]
pub(crate) struct Held {
    pub core: Box<Core>,
    pub front: Front,
    pub rest: Rest,
}

impl Fits for Held {
    type Tag = Beginning;

    ghost use Rattle.core_handover.specs.Rooms.{IsHeld};

    ghost fits = { λ tag h. IsHeld tag.book h };
}

/// What threads share.
#[derive(Drop)]
pub(crate) struct Room {
    /// FREE while the core is out, PRESENT while it is here, MARKED once it stays with the CPU that took it.
    lock: Counted<Option<Held>>,
    /// As many as monitors and two more. So one is always there that no monitor reads and that is not the newest.
    pages: Vec<Counted<Sheet>>,
    /// The place of the newest page.
    newest: AtomicU64,
    ghost same: { All (λ t. t.book ≡ lock.book) pages.items },
}

/// What is found in place of the core.
#[derive(Clone, Copy, Debug, PartialEq, Eq)]
pub(crate) enum Absent {
    /// A CPU has it.
    Out,
    /// A CPU keeps it for good.
    Kept,
}

/// How many monitors read a page, by its word.
fn reader_count(word: u64) -> u64
    ensures { result ≡ readers word }
{
    word % 0x1_0000_0000 / 4
}

/// So many pages of the opening.
fn sheets(alloc: Global, first: &Page, count: usize) -> Result<Vec<Counted<Sheet>>, AllocError>
    ensures { IfOk result (λ v. All (λ t. t.book ≡ first.now.book) v.items) }
{
    let mut pages = Vec::new(alloc);
    for place in 0..count {
        let sheet = Sheet::new(alloc, first.again())?;
        pages.push(Counted::new(sheet, &first.front().beginning()))?;
    }
    Ok(pages)
}

impl Room {
    /// A room without a core, for so many monitors. Its pages are those of the opening, and none is shown yet.
    pub fn new(alloc: Global, first: &Page, monitors: usize) -> Result<Room, AllocError>
        requires { monitors ≤ 8 }
        ensures { IfOk result (λ r. r.lock.book ≡ first.now.book) }
    {
        let count = if monitors > 0 { monitors + 2 } else { 0 };
        let pages = sheets(alloc, first, count)?;
        Ok(Room {
            lock: Counted::new(None, &first.front().beginning()),
            pages,
            newest: AtomicU64::new(0),
        })
    }

    /// Whether there is a monitor.
    pub fn is_watched(&self) -> bool {
        self.pages.len() > 0
    }

    /// Takes the core out. It never waits.
    pub fn take(&self) -> Result<Held, Absent>
        ensures { IfOk result (IsHeld self.now.lock.book) }
    {
        let word = self.lock.load();
        if word == MARKED {
            return Err(Absent::Kept);
        }
        if word != PRESENT {
            return Err(Absent::Out);
        }
        let (found, claim) = self.lock.turn(PRESENT, TAKEN);
        if found != PRESENT {
            claim.done();
            return Err(Absent::Out);
        }
        claim.put(None, FREE).ok_or(Absent::Out)
    }

    /// Puts the core back, which is out. It comes back itself if it isn't.
    pub fn put(&self, held: Held) -> Result<(), Held>
        requires { IsHeld self.now.lock.book held }
        ensures { IfErr result (λ h. h ≡ held) }
    {
        let (found, claim) = self.lock.turn(FREE, TAKEN);
        if found != FREE {
            claim.done();
            return Err(held);
        }
        let _none = claim.put(Some(held), PRESENT);
        Ok(())
    }

    /// Lets no CPU take the core from now on, which is out.
    pub fn close(&self) -> bool {
        let (found, claim) = self.lock.turn(FREE, TAKEN);
        if found != FREE {
            claim.done();
            return false;
        }
        let _none = claim.put(None, MARKED);
        true
    }

    /// Shows this page in the place of one that no monitor reads, which it returns. It never waits. If there is no such
    /// page, this one comes back, and the one shown before remains.
    pub fn publish(&self, sheet: Sheet) -> Sheet
        requires { IsOf self.now.lock.book sheet }
        ensures { IsOf self.now.lock.book result }
    {
        let newest = self.newest.load(SeqCst);
        let mut sheet = sheet;
        for place in 0..self.pages.len() {
            if place as u64 != newest {
                match self.show_at(place, sheet) {
                    Ok(old) => {
                        self.newest.store(place as u64, SeqCst);
                        return old;
                    }
                    Err(back) => sheet = back,
                }
            }
        }
        sheet
    }

    /// Puts a page at this place, if no monitor reads the one that is there, and returns that one.
    fn show_at(&self, place: usize, sheet: Sheet) -> Result<Sheet, Sheet>
        requires place { place < vec_len self.now.pages }
        requires sheet { IsOf self.now.lock.book sheet }
        ensures shown { IfOk result (IsOf self.now.lock.book) }
        ensures back { IfErr result (λ s. s ≡ sheet) }
    {
        let slot = &self.pages[place];
        let word = slot.load();
        if word != PRESENT && word != FREE {
            return Err(sheet);
        }
        let (found, claim) = slot.turn(word, TAKEN);
        if found != word {
            claim.done();
            return Err(sheet);
        }
        Ok(claim.put(sheet, PRESENT))
    }

    /// Copies the newest page. None only if others came between at each look.
    pub fn page(&self) -> Option<Page>
        ensures { IfSome result (λ p. p.book ≡ self.now.lock.book) }
    {
        for _ in 0..LOOKS {
            let place = self.newest.load(SeqCst) as usize;
            if place < self.pages.len() {
                if let Some(page) = self.page_at(place) {
                    return Some(page);
                }
            }
        }
        None
    }

    fn page_at(&self, place: usize) -> Option<Page>
        requires { place < vec_len self.now.pages }
        ensures { IfSome result (λ p. p.book ≡ self.now.lock.book) }
    {
        let slot = &self.pages[place];
        let word = slot.load();
        if word % 4 != PRESENT || reader_count(word) == MOST_READERS {
            return None;
        }
        let (found, claim) = slot.turn(word, word + ONE_READER);
        if found != word {
            claim.done();
            return None;
        }
        let page = claim.get().page.again();
        claim.leave();
        Some(page)
    }
}
