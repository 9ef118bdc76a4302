//! Laws of shootdowns. Each is the contract of a function that computes nothing.

ghost use Rattle.shootdowns.specs.Shadows.{UsesComeAfterZeros};
ghost use Rattle.shootdowns.specs.Windows.{OthersAreRead, OthersEndNothing, ShootdownsMakeEvents};
ghost use Rattle.shootdowns.specs.Windows.{CleanStoresComeFirst, StaleLoadsComeFirst, StaleStoresComeFirst, WalksComeFirst};

/// States which events the steps of a core and its processors are, where invalidating takes time. The accesses come in
/// the order in which they are made. Each event comes in it after its begin and before its window closes, behind each
/// access by what it ended. Such accesses are made only if the event only takes away. Replies and values are the answers
/// to the events in that order, and memory is a core's at each moment (`steps`).
///
/// What processors may do before all have invalidated depends on the event. If it only takes away, a load or store by
/// what a processor keeps (`loads`, `stale`), and an access by a walk (`walks`), come before it in the order. If it is a
/// Protect to read only, so does a store by what was kept before dirty was set, which sets dirty in the pages' words
/// (`clean`). After an event of any kind walks read all that was kept and isn't invalidated for it (`kept`). All but Unmap, Exit, Protect to
/// read only, Accept and Store end nothing (`nothing`). It computes nothing.
pub fn shootdowns_make_events()
    ensures steps { ShootdownsMakeEvents }
    ensures stale { StaleStoresComeFirst }
    ensures clean { CleanStoresComeFirst }
    ensures loads { StaleLoadsComeFirst }
    ensures walks { WalksComeFirst }
    ensures kept { OthersAreRead }
    ensures nothing { OthersEndNothing }
{}

/// States what others may do during an event that gives lazy pages frames and leaves their zeros, if nobody refills and
/// nobody walks until all have invalidated. It is a store of zeros to lazy pages, or an Accept of one. So it is where
/// processors walk tables of a kernel's own, which it fills outside windows. The event comes first in the order. Loads and
/// stores by what was kept before it come after it as they are made, stale ones too. It computes nothing.
#[tactic(auto, using(crate::proofs::Shadowed::uses_come_after_zeros))]
pub fn zeros_leave_others_be()
    ensures { UsesComeAfterZeros }
{}
