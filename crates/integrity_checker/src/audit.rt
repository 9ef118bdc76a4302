//! The audit: how it is made, and how what its helpers found is joined.

ghost use Rattle.std.specs.Prelude.{◌≡◌, ◌<◌, ◌≤◌, ◌+◌, ◌-◌, ◌++◌, ◌∷◌, [], ℕ, All, IfOk, IfErr, IfSome, false, length, map, sum_by, true, vec_len};
ghost use Rattle.std.specs.List.{list_all, range_with_len};
ghost use Rattle.memory_image.specs.Image.{frames};
ghost use Rattle.image_check.specs.Counts as counts;
ghost use Rattle.image_check.specs.Adds.{Counts};
ghost use Rattle.image_check.specs.Told.{verdict_on};
ghost use Rattle.image_check.specs.Verdict.{process_clause};
ghost use Rattle.image_check.specs.Draws.{times};
ghost use Rattle.integrity_checker.specs.Drawn.{IsIdle, drawer, once_below};
ghost use Rattle.integrity_checker.specs.Steps.{AnsweredAll, AreMissing, IsOf, IsRefused};

use crate::draw::{About, CutOne, Drawer, Gather, Total};
use crate::faults::AuditFault;
use crate::findings::Findings;
use crate::parts::{Audit, DrawTable, Helper};
use atomic_table::{Seat, Split, Table};
use image_check::Verdict;
use memory_image::Image;
use std::alloc::{AllocError, Global};

impl Audit {
    /// An audit of an image by 1 to 8 helpers, each with nothing answered. It takes all the memory that
    /// the audit, its helpers and its verdict need.
    ///
    /// BadCount for another number of helpers, before all else; NoMemory where a growth is refused.
    pub fn new(
        alloc: Global,
        image: Image,
        helpers: usize,
    ) -> Result<(Audit, Vec<Helper>), AuditFault>
        ensures refused { IfErr result (λ fault. IsRefused helpers fault) }
        ensures few { IfOk result (λ _. (1 ≤ helpers) × (helpers ≤ 8)) }
        ensures count { IfOk result (λ r. (r.0.helpers ≡ helpers) × (vec_len r.1 ≡ helpers)) }
        ensures image { IfOk result (λ r. r.0.image ≡ image) }
        ensures own { IfOk result (λ r. All (λ h. IsOf r.0 h) r.1.items) }
        ensures empty { IfOk result (λ r. All (λ h. h.answered ≡ []) r.1.items) }
    {
        if helpers < 1 || helpers > 8 {
            return Err(AuditFault::BadCount);
        }
        match made(alloc, image, helpers as u64) {
            Some(audit) => Ok(audit),
            None => Err(AuditFault::NoMemory),
        }
    }

    /// Joins what the helpers found. It allocates nothing.
    ///
    /// Missing only where a helper isn't handed back, or has not answered that no number is left.
    pub fn finish(self, helpers: Vec<Helper>) -> Result<Verdict, AuditFault>
        requires { All (λ h. IsOf self h) helpers.items }
        ensures all { IfOk result (λ _. AnsweredAll helpers.items) }
        ensures verdict { IfOk result (λ v. v ≡ verdict_on self.image) }
        ensures missing { IfErr result (λ fault. (fault ≡ AuditFault.Missing) × AreMissing self helpers.items) }
    {
        if helpers.len() as u64 != self.about.helpers {
            return Err(AuditFault::Missing);
        }
        if !are_done(helpers.as_slice()) {
            return Err(AuditFault::Missing);
        }
        let mut helpers = helpers;
        let first = helpers.pop().unwrap();
        let findings = join_all(&self, first, helpers);
        let Audit {
            table: _,
            about,
            room,
        } = self;
        let Findings {
            clauses,
            names,
            maps,
        } = findings;
        Ok(Verdict::of_counts(&about.image.by_ref(), clauses, &names, &maps, room))
    }
}

/// An audit by so many helpers; None where there is no memory for it.
fn made(alloc: Global, image: Image, helpers: u64) -> Option<(Audit, Vec<Helper>)>
    requires { (0 < helpers) × (helpers ≤ 8) }
    ensures count { IfSome result (λ r. (r.0.helpers ≡ helpers) × (vec_len r.1 ≡ helpers)) }
    ensures image { IfSome result (λ r. r.0.image ≡ image) }
    ensures own { IfSome result (λ r. All (λ h. IsOf r.0 h) r.1.items) }
    ensures empty { IfSome result (λ r. All (λ h. h.answered ≡ []) r.1.items) }
{
    let about = About { helpers, image };
    let Ok(room) = vec![in alloc; None; about.image.frames() as usize] else {
        return None;
    };
    let opened: Result<(DrawTable, Seat<u8, Drawer>), AllocError> = Table::of_words(
        alloc,
        &[0],
        &about,
    );
    let Ok((table, mut rest)) = opened else {
        return None;
    };
    let mut seats = Vec::new(alloc);
    for number in 1..helpers {
        let seat = cut_one(&table, &mut rest);
        let findings = Findings::new(alloc, &about.image)?;
        push(&mut seats, Helper::new(seat, findings))?;
    }
    let findings = Findings::new(alloc, &about.image)?;
    push(&mut seats, Helper::new(rest, findings))?;
    Some((Audit { table, about, room }, seats))
}

/// Cuts a seat that has drawn nothing in two, which together represent as many helpers.
fn cut<M: Split<Drawer>>(table: &DrawTable, seat: &mut Seat<u8, Drawer>) -> Seat<u8, Drawer>
    requires own { seat.old.table_id ≡ table.now.shared.table_id }
    requires words { table.now.shared.table_id.words ≡ 1 }
    requires idle { IsIdle seat.old.me.0 }
    requires left { IsIdle (M.left seat.old.me.0) }
    requires right { IsIdle (M.right seat.old.me.0) }
    requires shares { (M.left seat.old.me.0).share + (M.right seat.old.me.0).share ≡ seat.old.me.0.share }
    ensures left { seat.new.me ≡ (M.left seat.old.me.0, seat.old.me.1) }
    ensures right { result.me ≡ (M.right seat.old.me.0, []) }
    ensures own { (seat.new.table_id ≡ seat.old.table_id) × (result.table_id ≡ seat.old.table_id) }
{
    table.shared.split_seat::<M>(seat)
}

/// Cuts the seat of one helper off a seat that has drawn nothing, and represents at least one.
fn cut_one(table: &DrawTable, rest: &mut Seat<u8, Drawer>) -> Seat<u8, Drawer>
    requires own { rest.old.table_id ≡ table.now.shared.table_id }
    requires words { table.now.shared.table_id.words ≡ 1 }
    requires some { 0 < rest.old.me.0.share }
    requires idle { IsIdle rest.old.me.0 }
    ensures left { rest.new.me ≡ (drawer rest.old.me.0.image (rest.old.me.0.share - 1) [] false, rest.old.me.1) }
    ensures right { result.me ≡ (drawer rest.old.me.0.image 1 [] false, []) }
    ensures own { (rest.new.table_id ≡ rest.old.table_id) × (result.table_id ≡ rest.old.table_id) }
{
    cut::<CutOne>(table, rest)
}

/// Whether each of them has answered that none is left.
fn are_done(helpers: &[Helper]) -> bool
    ensures { result ≡ list_all (λ h. h.done) helpers.now }
{
    helpers.iter().all(|helper| helper.done)
}

/// Puts a helper behind the others; None where there is no memory for it.
fn push(seats: &mut Vec<Helper>, helper: Helper) -> Option<()>
    ensures { IfSome result (λ _. seats.new.items ≡ seats.old.items ++ helper ∷ []) }
{
    match seats.push(helper) {
        Ok(()) => Some(()),
        Err(_) => None,
    }
}

/// Joins the seats of all helpers, and adds what they found.
fn join_all(audit: &Audit, first: Helper, mut others: Vec<Helper>) -> Findings
    requires own { IsOf audit.now first × All (λ h. IsOf audit.now h) others.items }
    requires ended { (first.done ≡ true) × All (λ h. h.done ≡ true) others.items }
    requires count { vec_len others + 1 ≡ audit.now.helpers }
    ensures all { (x : ℕ) → times x first.answered + sum_by (λ h. times x h.answered) others.items ≡ once_below x 64 }
    ensures processes { result.clauses ≡ map (process_clause audit.now.image) (range_with_len 0 64) }
    ensures names { Counts result.names.items (frames audit.now.image) (λ f. counts.names audit.now.image f) }
    ensures maps { Counts result.maps.items (frames audit.now.image) (λ f. counts.maps audit.now.image f) }
{
    let Helper {
        mut seat,
        done: _,
        mut findings,
    } = first;
    let shared = &audit.table.shared;
    while let Some(helper) = others.pop() {
        let Helper {
            seat: other,
            done: _,
            findings: found,
        } = helper;
        shared.join_seat::<Gather>(&mut seat, other);
        findings.add(&found);
    }
    shared.load::<Total>(&mut seat, 0);
    findings
}
