//! Audits by 1 to 8 helpers, in turn and in threads, against the check by one.

ghost use Rattle.std.specs.Prelude.{All, IfOk};
ghost use Rattle.integrity_checker.specs.Steps.{IsOf};

use crate::common::{
    booted, check_sound, image_in, image_of, other_bytes, shared_both_ways, text_on, verdict_on,
};
use crate::comparing::{same, same_bytes};
use crate::images::PAGE_WORDS;
use image_check::Verdict;
use integrity_checker::{Audit, AuditFault, Helper, Step};
use kernel_calls::Core;
use memory_image::Image;
use page_words::{Frame, Pid};
use std::alloc::{AllocError, Global};
use std::process::Abort;
use std::thread;
use std::thread::Threads;

/// Words that are put into the image, so that it is sound or not: whether it is.
const CASES: [(&[(usize, u32)], bool); 25] = [
    // as it is, and with another value in the shared page
    (&[], true),
    (&[(46860, 8)], true),
    // words of version 1, and each version with the other's words
    (&[(4, 1), (26380, 0xb267), (50956, 0xb267)], true),
    (&[(4, 1)], false),
    (&[(26380, 0xb267), (50956, 0xb267)], false),
    // a table in the place of a shared page
    (&[(26380, 0xca67)], false),
    // no page in a table, and a page that is mapped elsewhere
    (&[(26380, 0)], false),
    (&[(26380, 0x3a67)], false),
    // quota of process 0, and directory of process 1
    (&[(20, 16)], false),
    (&[(56, 0)], false),
    // a word of directory 10, in slot 0 and in slot 256
    (&[(42764, 1)], false),
    (&[(43788, 0xc0a7)], false),
    // used and quota of process 1, given and used of process 0
    (&[(48, 4)], false),
    (&[(44, 2)], false),
    (&[(28, 6)], false),
    (&[(24, 4)], false),
    // a word of frame 0, and roles of frame 1
    (&[(1808, 1)], false),
    (&[(1564, 0)], false),
    (&[(1564, 2)], false),
    (&[(1564, 3)], false),
    // count of frame 11
    (&[(1736, 3)], false),
    // a word of table 12: a page in a free frame, and a lazy page that nobody is charged for
    (&[(50960, 0x1005)], false),
    (&[(50960, 0x0405)], false),
    // a lazy page with a charge for it, in version 1 and in version 2
    (
        &[
            (4, 1),
            (26380, 0xb267),
            (50956, 0xb267),
            (50960, 0x0405),
            (24, 4),
        ],
        false,
    ),
    (&[(50960, 0x0405), (24, 4)], true),
];

/// The image with these words put to it.
fn image_with<R: AllocGlobal + Abort>(rt: &R, changes: &[(usize, u32)]) -> Image {
    image_in(rt, &other_bytes(rt, 2, PAGE_WORDS[2], changes))
}

/// What helpers answered: how often each number, and how often another clause than the check's.
#[derive(Drop)]
struct Answers {
    times: [u64; 64],
    wrong: u64,
}

/// No answers.
fn no_answers() -> Answers {
    Answers {
        times: [0; 64],
        wrong: 0,
    }
}

/// Adds answers to others.
fn add_answers(into: &mut Answers, more: &Answers) {
    for (count, new) in into.times.iter_mut().zip(more.times.iter()) {
        *count = count.wrapping_add(*new);
    }
    into.wrong = into.wrong.wrapping_add(more.wrong);
}

/// Adds one to the times of a number.
fn count(times: &mut [u64; 64], number: u8) {
    if let Some(count) = times.get_mut(number as usize) {
        *count = count.wrapping_add(1);
    }
}

/// Adds what a step answered.
fn add_step(into: &mut Answers, step: Step, told: &Verdict) {
    if let Step::Checked { pid, clause } = step {
        count(&mut into.times, pid.number());
        into.wrong = into
            .wrong
            .wrapping_add(u64::from(clause != told.process(pid)));
    }
}

/// Some steps of a helper.
fn steps(
    audit: &Audit,
    mut helper: Helper,
    told: &Verdict,
    turns: u64,
    answers: &mut Answers,
) -> Helper
    requires { IsOf audit.now helper }
    ensures { IsOf audit.now result }
{
    for turn in 0..turns {
        let step = helper.step(audit);
        add_step(answers, step, told);
    }
    helper
}

/// Some steps of each of the first helpers, one after the other.
fn round(
    alloc: Global,
    audit: &Audit,
    mut helpers: Vec<Helper>,
    told: &Verdict,
    turns: u64,
    first: usize,
    answers: &mut Answers,
) -> Result<Vec<Helper>, AllocError>
    requires { All (λ h. IsOf audit.now h) helpers.items }
    ensures { IfOk result (λ v. All (λ h. IsOf audit.now h) v.items) }
{
    let mut back = Vec::new(alloc);
    while let Some(helper) = helpers.pop() {
        let turns = if back.len() < first { turns } else { 0 };
        back.push(steps(audit, helper, told, turns, answers))?;
    }
    Ok(back)
}

/// Whether two verdicts differ on the process of a number.
fn differ(one: &Verdict, other: &Verdict, number: u8) -> bool {
    match Pid::new(number) {
        Some(pid) => one.process(pid) != other.process(pid),
        None => true,
    }
}

/// On how many processes two verdicts differ.
fn count_processes(one: &Verdict, other: &Verdict) -> u64 {
    let mut differing = 0u64;
    for number in 0..64 {
        differing = differing.wrapping_add(u64::from(differ(one, other, number)));
    }
    differing
}

/// On how many of so many frames two verdicts differ.
fn count_frames(one: &Verdict, other: &Verdict, frames: u32) -> u64 {
    let mut differing = 0u64;
    for number in 0..frames {
        let differs = one.frame(Frame(number)) != other.frame(Frame(number));
        differing = differing.wrapping_add(u64::from(differs));
    }
    differing
}

/// All steps of a helper, and what it answered.
fn all_steps(audit: &Audit, helper: Helper, told: &Verdict) -> (Helper, Answers)
    requires { IsOf audit.now helper }
    ensures { IsOf audit.now result.0 }
{
    let mut answers = no_answers();
    let helper = steps(audit, helper, told, 65, &mut answers);
    (helper, answers)
}

/// All steps of all helpers, each in a thread of its own, and what they answered.
fn threads<R: Threads + Sync>(
    rt: &R,
    audit: &Audit,
    helpers: Vec<Helper>,
    told: &Verdict,
) -> Result<Vec<(Helper, Answers)>, AllocError>
    requires { All (λ h. IsOf audit.now h) helpers.items }
    ensures { IfOk result (λ v. All (λ r. IsOf audit.now r.0) v.items) }
{
    let work = move |helper: Helper| -> (Helper, Answers)
        requires { IsOf audit.now helper }
        ensures { IsOf audit.entry.now result.0 }
    { all_steps(audit, helper, told) };
    let done = thread::map_vec(rt, helpers, &work)?;
    Ok(done)
}

/// The helpers that come back, and all that they answered.
fn handed_back(
    alloc: Global,
    audit: &Audit,
    mut done: Vec<(Helper, Answers)>,
    answers: &mut Answers,
) -> Result<Vec<Helper>, AllocError>
    requires { All (λ r. IsOf audit.now r.0) done.items }
    ensures { IfOk result (λ v. All (λ h. IsOf audit.now h) v.items) }
{
    let mut back = Vec::new(alloc);
    while let Some(one) = done.pop() {
        let (helper, found) = one;
        add_answers(answers, &found);
        back.push(helper)?;
    }
    Ok(back)
}

/// An audit of an image by so many helpers.
fn begun<R: AllocGlobal + Abort>(rt: &R, image: Image, helpers: usize) -> (Audit, Vec<Helper>)
    ensures { All (λ h. IsOf result.0 h) result.1.items }
{
    Audit::new(rt.alloc(), image, helpers).expect(rt, "an audit")
}

/// So many turns of the first helpers, one helper after the other.
fn turned<R: AllocGlobal + Abort>(
    rt: &R,
    audit: &Audit,
    helpers: Vec<Helper>,
    told: &Verdict,
    turns: u64,
    first: usize,
    answers: &mut Answers,
) -> Vec<Helper>
    requires { All (λ h. IsOf audit.now h) helpers.items }
    ensures { All (λ h. IsOf audit.now h) result.items }
{
    round(rt.alloc(), audit, helpers, told, turns, first, answers).expect(rt, "a place")
}

/// All steps of all helpers in turn, at first five of each.
fn stepped_in_turn<R: AllocGlobal + Abort>(
    rt: &R,
    audit: &Audit,
    helpers: Vec<Helper>,
    told: &Verdict,
    answers: &mut Answers,
) -> Vec<Helper>
    requires { All (λ h. IsOf audit.now h) helpers.items }
    ensures { All (λ h. IsOf audit.now h) result.items }
{
    let some = turned(rt, audit, helpers, told, 5, 8, answers);
    turned(rt, audit, some, told, 65, 8, answers)
}

/// All steps of all helpers, each in a thread of its own.
fn stepped_in_threads<R: AllocGlobal + Threads + Abort + Sync>(
    rt: &R,
    audit: &Audit,
    helpers: Vec<Helper>,
    told: &Verdict,
    answers: &mut Answers,
) -> Vec<Helper>
    requires { All (λ h. IsOf audit.now h) helpers.items }
    ensures { All (λ h. IsOf audit.now h) result.items }
{
    let done = threads(rt, audit, helpers, told).expect(rt, "a thread");
    handed_back(rt.alloc(), audit, done, answers).expect(rt, "a place")
}

/// All steps of all helpers, in turn or each in a thread of its own.
fn stepped<R: AllocGlobal + Threads + Abort + Sync>(
    rt: &R,
    audit: &Audit,
    helpers: Vec<Helper>,
    told: &Verdict,
    in_threads: bool,
    answers: &mut Answers,
) -> Vec<Helper>
    requires { All (λ h. IsOf audit.now h) helpers.items }
    ensures { All (λ h. IsOf audit.now h) result.items }
{
    if in_threads {
        return stepped_in_threads(rt, audit, helpers, told, answers);
    }
    stepped_in_turn(rt, audit, helpers, told, answers)
}

/// Ends an audit with its helpers.
fn finished(rt: &impl Abort, audit: Audit, helpers: Vec<Helper>) -> Verdict
    requires { All (λ h. IsOf audit h) helpers.items }
{
    audit.finish(helpers).expect(rt, "a verdict")
}

/// The verdict of an audit by so many helpers in turn, or each in a thread of its own, and what they
/// answered.
fn audited<R: AllocGlobal + Threads + Abort + Sync>(
    rt: &R,
    image: Image,
    count: usize,
    in_threads: bool,
    told: &Verdict,
) -> (Verdict, Answers) {
    let (audit, helpers) = begun(rt, image, count);
    let mut answers = no_answers();
    let back = stepped(rt, &audit, helpers, told, in_threads, &mut answers);
    (finished(rt, audit, back), answers)
}

/// Each number was answered once, with the check's clause.
fn check_answers(rt: &impl Abort, answers: &Answers, helpers: usize) {
    let found = (helpers, answers.times, answers.wrong);
    same(rt, &found, &(helpers, [1; 64], 0));
}

/// Checks that a verdict is the check's on all processes and on so many frames.
fn check_agrees(rt: &impl Abort, verdict: &Verdict, told: &Verdict, frames: u32, helpers: usize) {
    let processes = count_processes(told, verdict);
    let found = (
        helpers,
        processes,
        count_frames(told, verdict, frames),
        verdict.sound(),
    );
    same(rt, &found, &(helpers, 0, 0, told.sound()));
}

/// By so many helpers, in turn or in threads, the verdict on an image is the check's, also of a frame that it has
/// not, and each number was answered once, with the check's clause.
fn check_audit<R: AllocGlobal + Threads + Abort + Sync>(
    rt: &R,
    image: Image,
    told: &Verdict,
    helpers: usize,
    in_threads: bool,
) {
    let frames = image.frames().wrapping_add(1);
    let (verdict, answers) = audited(rt, image, helpers, in_threads, told);
    check_answers(rt, &answers, helpers);
    check_agrees(rt, &verdict, told, frames, helpers);
}

/// Checks audits by 1 to 8 helpers, of the image with these words put to it.
fn check_audits<R: AllocGlobal + Threads + Abort + Sync>(
    rt: &R,
    changes: &[(usize, u32)],
    told: &Verdict,
    in_threads: bool,
) {
    for helpers in 1..9usize {
        check_audit(rt, image_with(rt, changes), told, helpers, in_threads);
    }
}

/// Checks audits by 1 to 8 helpers of the changed image, and that the check's verdict is `sound`.
fn check_case<R: AllocGlobal + Threads + Abort + Sync>(
    rt: &R,
    changes: &[(usize, u32)],
    sound: bool,
    in_threads: bool,
) {
    let told = verdict_on(rt, &image_with(rt, changes));
    check_sound(rt, &told, sound);
    check_audits(rt, changes, &told, in_threads);
}

/// Checks every case of CASES.
fn check_cases<R: AllocGlobal + Threads + Abort + Sync>(rt: &R, in_threads: bool) {
    for (changes, sound) in CASES {
        check_case(rt, changes, sound, in_threads);
    }
}

/// No audit has so many helpers.
fn check_refused<R: AllocGlobal + Abort>(rt: &R, helpers: usize) {
    let fault = Audit::new(rt.alloc(), image_with(rt, &[]), helpers).err();
    same(rt, &fault, &Some(AuditFault::BadCount));
}

#[test]
fn other_numbers_of_helpers_are_refused(rt: HostRuntime) {
    check_refused(&rt, 0);
    check_refused(&rt, 9);
    check_refused(&rt, usize::MAX);
}

/// An audit does not end with these helpers.
fn check_missing(rt: &impl Abort, audit: Audit, helpers: Vec<Helper>)
    requires { All (λ h. IsOf audit h) helpers.items }
{
    same(rt, &audit.finish(helpers).err(), &Some(AuditFault::Missing));
}

#[test]
fn a_helper_that_was_not_stepped_is_missing(rt: HostRuntime) {
    let told = verdict_on(&rt, &image_with(&rt, &[]));
    let (audit, helpers) = begun(&rt, image_with(&rt, &[]), 2);
    let mut answers = no_answers();
    let back = turned(&rt, &audit, helpers, &told, 65, 1, &mut answers);
    check_answers(&rt, &answers, 1);
    check_missing(&rt, audit, back);
}

#[test]
fn helpers_in_turn_find_what_one_finds(rt: HostRuntime) {
    check_cases(&rt, false);
}

#[test]
fn helpers_in_threads_find_what_one_finds(rt: HostRuntime) {
    check_cases(&rt, true);
}

/// How many numbers were answered.
fn answered(answers: &Answers) -> u64 {
    let mut sum = 0u64;
    for count in answers.times {
        sum = sum.wrapping_add(count);
    }
    sum
}

/// So many turns of the first of two helpers: the helpers, and how many numbers were answered.
fn turned_first<R: AllocGlobal + Abort>(
    rt: &R,
    audit: &Audit,
    helpers: Vec<Helper>,
    told: &Verdict,
    turns: u64,
) -> (Vec<Helper>, u64)
    requires { All (λ h. IsOf audit.now h) helpers.items }
    ensures { All (λ h. IsOf audit.now h) result.0.items }
{
    let mut answers = no_answers();
    let helpers = turned(rt, audit, helpers, told, turns, 1, &mut answers);
    (helpers, answered(&answers))
}

/// The verdict of two helpers, and how many numbers each of the three answered. The first checks 32 numbers, the second
/// the others, and the first then none.
fn by_halves<R: AllocGlobal + Abort>(rt: &R, image: Image, told: &Verdict) -> (Verdict, [u64; 3]) {
    let (audit, helpers) = begun(rt, image, 2);
    let (helpers, first) = turned_first(rt, &audit, helpers, told, 32);
    let (helpers, second) = turned_first(rt, &audit, helpers, told, 33);
    let (helpers, third) = turned_first(rt, &audit, helpers, told, 1);
    (finished(rt, audit, helpers), [first, second, third])
}

/// With a word at a place two helpers find what has this text, each by half of the numbers.
fn check_halves<R: AllocGlobal + Abort>(rt: &R, place: usize, word: u32, text: &str) {
    let told = verdict_on(rt, &image_with(rt, &[(place, word)]));
    let (verdict, numbers) = by_halves(rt, image_with(rt, &[(place, word)]), &told);
    same(rt, &numbers, &[32, 32, 0]);
    same_bytes(rt, &text_on(rt, &verdict), text.as_bytes());
}

#[test]
fn two_helpers_of_half_the_numbers_tell_what_fails(rt: HostRuntime) {
    let orphans = "process 1 P2\nframe 5 F2\nframe 6 F3\nframe 11 F4\n";
    // quota of process 0, and directory of process 1
    check_halves(&rt, 20, 16, "process 0 P1\n");
    check_halves(&rt, 56, 0, orphans);
    // a word of directory 10 in slot 0, which is outside the user range
    check_halves(&rt, 42_764, 1, "process 0 P3\n");
    // used of process 1, given of process 0, quota of process 1
    check_halves(&rt, 48, 4, "process 1 P5\n");
    check_halves(&rt, 28, 6, "process 0 P6\n");
    check_halves(&rt, 44, 2, "process 0 P6\nprocess 1 P7\n");
    // a word of frame 0, roles of frame 1, and the count of frame 11
    check_halves(&rt, 1808, 1, "frame 0 F1\n");
    check_halves(&rt, 1564, 2, "frame 1 F2\n");
    check_halves(&rt, 1564, 3, "frame 1 F3\n");
    check_halves(&rt, 1736, 3, "frame 11 F4\n");
    // a word of table 12: a page in a free frame
    check_halves(&rt, 50_960, 0x1005, "process 0 P4\nframe 1 F5\n");
}

/// By 1 to 8 helpers, in turn and in threads, the verdict on the changed image has this text.
fn check_texts<R: AllocGlobal + Threads + Abort + Sync>(
    rt: &R,
    changes: &[(usize, u32)],
    text: &str,
) {
    let told = verdict_on(rt, &image_with(rt, changes));
    for helpers in 1..9usize {
        for in_threads in [false, true] {
            let image = image_with(rt, changes);
            let (verdict, _answers) = audited(rt, image, helpers, in_threads, &told);
            same_bytes(rt, &text_on(rt, &verdict), text.as_bytes());
        }
    }
}

#[test]
fn helpers_tell_a_page_that_names_a_table(rt: HostRuntime) {
    let text = "process 1 P4\nframe 11 F4\nframe 12 F3\n";
    check_texts(&rt, &[(26_380, 0xca67)], text);
}

/// By 1 to 8 helpers, in turn or in threads, the verdict on a core is the check's.
fn check_core_by<R: AllocGlobal + Threads + Abort + Sync>(
    rt: &R,
    core: &Core,
    told: &Verdict,
    in_threads: bool,
) {
    for helpers in 1..9usize {
        check_audit(rt, image_of(rt, core), told, helpers, in_threads);
    }
}

/// By 1 to 8 helpers, in turn and in threads, a core is sound, as the check says.
fn check_core<R: AllocGlobal + Threads + Abort + Sync>(rt: &R, core: &Core) {
    let told = verdict_on(rt, &image_of(rt, core));
    check_sound(rt, &told, true);
    check_core_by(rt, core, &told, false);
    check_core_by(rt, core, &told, true);
}

#[test]
fn helpers_find_a_core_sound(rt: HostRuntime) {
    check_core(&rt, &booted(&rt, 16));
}

#[test]
fn helpers_find_a_core_of_a_shared_page_sound(rt: HostRuntime) {
    check_core(&rt, &shared_both_ways(&rt));
}

#[test]
fn helpers_find_the_largest_core_sound(rt: HostRuntime) {
    check_core(&rt, &booted(&rt, 4096));
}
