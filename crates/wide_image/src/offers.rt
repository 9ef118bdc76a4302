//! The pending offers of a machine, as a snapshot has them.

ghost use Rattle.std.specs.Prelude.{◌≡◌, ◌<◌, ◌^◌};
ghost use Rattle.wide_image.specs.Offers.{rank};

use page_words::{Page, Pid};

/// A pending offer: a page that a process offers to another.
#[derive(Clone, Copy, Debug, PartialEq, Eq)]
pub struct PendingOffer {
    pub offerer: Pid,
    pub page: Page,
    pub target: Pid,
    /// Whether the target may write to the page.
    pub write: bool,
}

/// The place of an offer among all that there can be: by offerer, then by page, then by target.
pub(crate) fn rank(offerer: u32, page: u32, target: u32) -> u64
    ensures is { result ≡ rank offerer page target }
    ensures most { result < 2 ^ 60 }
{
    67_108_864 * u64::from(offerer) + 64 * u64::from(page) + u64::from(target)
}
