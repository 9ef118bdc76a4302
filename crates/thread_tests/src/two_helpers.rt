//! Two helpers of an audit, for the tests: taken from it, stepped, and handed back.

ghost use Rattle.std.specs.Prelude.{All};
ghost use Rattle.integrity_checker.specs.Steps.{IsOf};

use integrity_checker::{Audit, Helper, Step};
use memory_image::Image;
use std::process::Abort;

/// An audit of an image by two helpers.
pub fn begun<R: AllocGlobal + Abort>(rt: &R, image: Image) -> (Audit, Vec<Helper>)
    ensures { All (λ h. IsOf result.0 h) result.1.items }
{
    Audit::new(rt.alloc(), image, 2).expect(rt, "an audit")
}

/// Takes the last helper.
pub fn taken<R: Abort>(rt: &R, audit: &Audit, helpers: &mut Vec<Helper>) -> Helper
    requires { All (λ h. IsOf audit.now h) helpers.old.items }
    ensures left { All (λ h. IsOf audit.now h) helpers.new.items }
    ensures taken { IsOf audit.now result }
{
    helpers.pop().expect(rt, "a helper")
}

/// So many steps of a helper, and how many numbers it checked.
pub fn stepped(audit: &Audit, mut helper: Helper, turns: u64) -> (Helper, u64)
    requires { IsOf audit.now helper }
    ensures { IsOf audit.now result.0 }
{
    let mut checked = 0u64;
    for turn in 0..turns {
        if helper.step(audit) != Step::NoneLeft {
            checked = checked.wrapping_add(1);
        }
    }
    (helper, checked)
}

/// Puts a helper back behind the others.
pub fn put<R: Abort>(rt: &R, audit: &Audit, mut helpers: Vec<Helper>, helper: Helper) -> Vec<Helper>
    requires { All (λ h. IsOf audit.now h) helpers.items × IsOf audit.now helper }
    ensures { All (λ h. IsOf audit.now h) result.items }
{
    helpers.push(helper).expect(rt, "a place");
    helpers
}

/// Ends an audit with its helpers, which found the image sound.
pub fn check_sound<R: Abort>(rt: &R, audit: Audit, helpers: Vec<Helper>)
    requires { All (λ h. IsOf audit h) helpers.items }
{
    assert!(rt; audit.finish(helpers).expect(rt, "a verdict").sound());
}
