//! What an audit answers where memory is refused.

use crate::common::{booted, image_of, say};
use crate::comparing::same;
use integrity_checker::{Audit, AuditFault};
use kernel_calls::Core;
use std::process::Abort;

/// How many helpers there are, where an audit of a core is asked for two.
fn begun<R: AllocGlobal + Abort>(rt: &R, core: &Core) -> Result<usize, AuditFault> {
    Audit::new(rt.alloc(), image_of(rt, core), 2).map(|made| made.1.len())
}

/// The fault is NoMemory. The same call then gives two helpers, and prints a line that says so.
fn begin_again<R: AllocGlobal + Abort + Print>(rt: &R, core: &Core, fault: AuditFault) {
    same(rt, &fault, &AuditFault::NoMemory);
    same(rt, &begun(rt, core), &Ok(2));
    say(rt, "NoMemory, and then an audit");
}

/// An audit of a core has two helpers, immediately or after NoMemory.
fn check_begun<R: AllocGlobal + Abort + Print>(rt: &R, core: &Core) {
    match begun(rt, core) {
        Ok(helpers) => same(rt, &helpers, &2),
        Err(fault) => begin_again(rt, core, fault),
    }
}

/// `rt try --test --fail-alloc N` refuses the Nth allocation of this test alone. The first six are those of
/// the core and its image; the others are those of `Audit::new`. A call that meets a refusal answers
/// NoMemory, the same call with memory then gives two helpers, and a line is printed that says so.
#[test]
fn goes_on_after_want_of_memory(rt: HostRuntime) {
    check_begun(&rt, &booted(&rt, 16));
}
