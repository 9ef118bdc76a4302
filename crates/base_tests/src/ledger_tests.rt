//! Tests of the ledger, and of its list of free frames against a plain scan.

ghost use Rattle.std.specs.Prelude.{◌≡◌, length};

use crate::comparing::same;
use frame_ledger::Ledger;
use page_words::{Frame, MachineFault, WideFault};
use std::process::Abort;
use std::test::Fail;

/// Takes all frames that are free.
fn take_all(rt: &impl Abort, ledger: &mut Ledger) {
    for _ in 0..15 {
        let frame = ledger.take().expect(rt, "a frame is free");
        assert!(rt; !ledger.is_free(frame));
    }
}

#[test]
fn takes_each_frame_once(rt: HostRuntime) -> Result<(), Fail> {
    let mut ledger = Ledger::new(rt.alloc(), 16)?;
    take_all(&rt, &mut ledger);
    same(&rt, &(ledger.free_count(), ledger.take()), &(0, None));
    Ok(())
}

#[test]
fn takes_again_what_was_put_back(rt: HostRuntime) -> Result<(), Fail> {
    let mut ledger = Ledger::new(rt.alloc(), 16)?;
    let frame = ledger.take().ok_or("a frame is free")?;
    ledger.put_back(frame);
    assert!(rt; ledger.is_free(frame));
    same(&rt, &ledger.free_count(), &15);
    ledger.within();
    Ok(())
}

#[test]
fn a_full_ledger_has_only_what_is_put_back(rt: HostRuntime) -> Result<(), Fail> {
    let mut ledger = Ledger::full(rt.alloc(), 16)?;
    same(&rt, &(ledger.free_count(), ledger.take()), &(0, None));
    assert!(rt; !ledger.is_free(Frame(3)));
    ledger.put_back(Frame(3));
    same(&rt, &ledger.free_count(), &1);
    same(
        &rt,
        &(ledger.take(), ledger.take()),
        &(Some(Frame(3)), None),
    );
    Ok(())
}

#[test]
fn takes_more_frames_where_it_is_wide(rt: HostRuntime) {
    let sizes = [15, 4097, 1048576, 1048577].map(|frames| Ledger::wide(rt.alloc(), frames).map(
        |ledger| ledger.free_count(),
    ));
    same(
        &rt,
        &sizes,
        &[
            Err(WideFault::BadSize),
            Ok(4096),
            Ok(1048575),
            Err(WideFault::BadSize),
        ],
    );
}

#[test]
fn takes_16_to_4096_frames(rt: HostRuntime) {
    let sizes = [15, 16, 4096, 4097].map(|frames| Ledger::new(rt.alloc(), frames).map(
        |ledger| ledger.free_count(),
    ));
    same(
        &rt,
        &sizes,
        &[
            Err(MachineFault::BadSize),
            Ok(15),
            Ok(4095),
            Err(MachineFault::BadSize),
        ],
    );
}

/// The plain reference's count: a scan of one mark a frame, true if the frame is free.
fn count_free(marks: &[bool]) -> usize {
    marks.iter().filter(|mark| **mark).count()
}

/// The next number of a fixed generator.
fn next_number(seed: &mut u32) -> u32 {
    *seed = seed.wrapping_mul(1_664_525).wrapping_add(1_013_904_223);
    *seed / 65536
}

/// Takes a frame, which a scan must find free; None comes exactly where it finds none.
fn take_one(rt: &impl Abort, ledger: &mut Ledger, marks: &mut [bool]) -> Option<Frame>
    ensures { ledger.new.frames ≡ ledger.old.frames }
{
    let found = ledger.take();
    same(rt, &found.is_some(), &(count_free(marks) > 0));
    let frame = found?;
    let place = frame.0 as usize;
    assert!(rt; place < marks.len());
    assert!(rt; marks[place], "frame {place} was in use");
    marks[place] = false;
    Some(frame)
}

/// Returns a frame that is in use.
fn put_one_back(rt: &impl Abort, ledger: &mut Ledger, marks: &mut [bool], frame: Frame)
    requires { length marks.old ≡ ledger.old.frames }
    ensures { ledger.new.frames ≡ ledger.old.frames }
{
    let place = frame.0 as usize;
    assert!(rt; place > 0 && place < marks.len());
    assert!(rt; !ledger.is_free(frame));
    ledger.put_back(frame);
    marks[place] = true;
}

/// Takes or returns a frame at random. Whether one was asked for and none was free.
fn take_or_return(
    rt: &impl Abort,
    ledger: &mut Ledger,
    marks: &mut [bool],
    taken: &mut Vec<Frame>,
    seed: &mut u32,
    takes: u32,
) -> bool
    requires { length marks.old ≡ ledger.old.frames }
    ensures { ledger.new.frames ≡ ledger.old.frames }
{
    if next_number(seed) % 8 < takes {
        return match take_one(rt, ledger, marks) {
            Some(frame) => {
                taken.push(frame).ok().expect(rt, "memory for a frame");
                false
            }
            None => true,
        };
    }
    if !taken.is_empty() {
        let at = next_number(seed) as usize % taken.len();
        put_one_back(rt, ledger, marks, taken.swap_remove(at));
    }
    false
}

fn check_count(rt: &impl Abort, ledger: &Ledger, marks: &[bool]) {
    same(rt, &(ledger.free_count() as usize), &count_free(marks));
}

/// Takes and returns many frames at random, in phases of mostly takes and mostly returns.
fn agrees_with_a_scan<R: AllocGlobal + Abort>(rt: &R, frames: u32, phase: u32) -> Result<(), Fail> {
    assert!(rt; phase > 0);
    let mut ledger = Ledger::new(rt.alloc(), frames)?;
    let mut marks = vec![in rt.alloc(); true; frames as usize]?;
    marks[0] = false;
    let mut taken = Vec::new(rt.alloc());
    let mut seed = 17;
    let mut emptied = 0u32;
    for step in 0..12_288u32 {
        let takes = if step / phase % 2 == 0 { 7 } else { 1 };
        let none = take_or_return(rt, &mut ledger, &mut marks, &mut taken, &mut seed, takes);
        emptied = emptied.wrapping_add(none as u32);
        check_count(rt, &ledger, &marks);
    }
    assert!(rt; emptied > 0);
    Ok(())
}

#[test]
fn agrees_with_a_scan_of_16_frames(rt: HostRuntime) -> Result<(), Fail> {
    agrees_with_a_scan(&rt, 16, 48)
}

#[test]
fn agrees_with_a_scan_of_4096_frames(rt: HostRuntime) -> Result<(), Fail> {
    agrees_with_a_scan(&rt, 4096, 6_144)
}

/// `rt try --test --fail-alloc N` refuses the Nth allocation of this test alone, and each is one of
/// `new`. A call that meets it answers NoMemory, the same call with memory then succeeds, and a line
/// is printed that says so.
#[test]
fn goes_on_after_want_of_memory(rt: HostRuntime) -> Result<(), Fail> {
    let first = Ledger::new(rt.alloc(), 16).map(|ledger| ledger.free_count());
    if first.is_err() {
        same(&rt, &first, &Err(MachineFault::NoMemory));
        let again = Ledger::new(rt.alloc(), 16).map(|ledger| ledger.free_count());
        same(&rt, &again, &Ok(15));
        println!(rt; "NoMemory, and then a ledger")?;
    }
    Ok(())
}
