//! Laws on what one process can do to another, and learn of it. Each is the contract of a function that computes nothing.

ghost use Rattle.authority_laws.specs.Authority.{StatesStayWellFormed, RefusalsChangeNothing, NobodyTakesBack, SharingByConsent, SharingStays, OffersByOfferer, ExitsEnd, UnmapsEnd, OffersEnd, OffersStay, ChildrenAreTheirMakers, PlacesStay, MembersToldTheSame, OwnIsEnough, MembersSeeTheSame, OutsidersUnseen, MembersHearTheSame, RunsKeepBorders, OutsidersHearNothing};
ghost use Rattle.authority_laws.specs.Availability.{OthersNeverRefuse, RunsAreServed, RunsNeverRefuse};
ghost use Rattle.authority_laws.specs.Families.{FamiliesHearTheirOwn, FamiliesEndTheSame, NewbornsAreFamilies};
ghost use Rattle.kernel_calls.specs.Integrity.{ChangesAreRightful, Integrity};

/// States what an event may change. States stay well formed, and a call that is refused or faults changes nothing. A
/// slot that is mapped before and after an event keeps what it may have, and its accessed and dirty. It keeps the right
/// to write, unless its process protects it. It keeps each byte, unless the event stores through a writable slot of its
/// own that shares the page. A live process keeps its place in the book and its mapped pages with their flags through
/// each event of another. It keeps what it has given, unless a child exits. So no event of another takes back a page
/// that it accepted. It computes nothing.
pub fn processes_keep_their_integrity()
    ensures well_formed { StatesStayWellFormed }
    ensures refused { RefusalsChangeNothing }
    ensures slots { ChangesAreRightful }
    ensures events { Integrity }
    ensures runs { NobodyTakesBack }
{}

/// Two slots come to share a page only by an Accept, of an offer by the owner of a slot of that page, with no more
/// right than that slot may have. They share it until one of them is given up. Only its offerer makes an offer. It
/// computes nothing.
pub fn authority_spreads_by_consent()
    ensures sharing { SharingByConsent }
    ensures stays { SharingStays }
    ensures offers { OffersByOfferer }
{}

/// States that what a process releases is gone once the reply is Done. An exit leaves nothing of the process, and an
/// unmap nothing of the slot. An offer that is withdrawn or accepted is gone, and nothing else ends one. It computes
/// nothing.
pub fn what_is_given_up_goes()
    ensures exits { ExitsEnd }
    ensures unmaps { UnmapsEnd }
    ensures offers { OffersEnd }
    ensures stays { OffersStay }
{}

/// States what a new child has. The child whose number a process gets was not live. Now it is, as its child, with the
/// quota of the call: with no page after a spawn, and copies of its parent's after a fork. No other place in the book
/// changes except that of a process that exits. It computes nothing.
pub fn children_are_their_makers()
    ensures births { ChildrenAreTheirMakers }
    ensures places { PlacesStay }
{}

/// A process's replies, and what it has after any call except an Accept, depend only on what it has. For Offer, Spawn
/// and Fork they also depend on which processes the call finds live. The reply to an Accept also depends on whether its
/// offer is pending, but not on the content of the page. It computes nothing.
#[tactic(auto, using(crate::proofs::OwnViews::members_told_the_same, crate::proofs::OwnViews::own_is_enough))]
pub fn what_a_process_has_is_enough()
    ensures told { MembersToldTheSame }
    ensures own { OwnIsEnough }
{}

/// What the members of a set of processes see together after an event of one of them, with the child that it may make,
/// depends only on what they saw together. An event of another process through none of the listed channels leaves that
/// unchanged. So in two runs in which members make the same calls and find the same, they get the same replies,
/// whatever others do through no channel, even where these make processes and exit. It computes nothing.
pub fn members_see_their_own()
    ensures sees { MembersSeeTheSame }
    ensures unseen { OutsidersUnseen }
    ensures runs { MembersHearTheSame }
{}

/// Takes a set of processes that shares no page with others and offers them none. From then on it makes no offer except
/// to members and no accept except from members, not even a refused one. It stays so in every run, as a set of numbers
/// and with all children that its members make. No run of events of others changes a member's place in the book, its
/// pages or its offers. Others learn nothing of what members have and do except which numbers are free, if no child of
/// theirs, and no process to which they offer a page, exits among the members. A set of live processes with all their
/// children that is confined in this way gets the same replies whatever others do, except for which numbers are free.
/// It computes nothing.
pub fn confined_processes_stay_confined()
    ensures borders { RunsKeepBorders }
    ensures unheard { OutsidersHearNothing }
    ensures unreached { FamiliesHearTheirOwn }
{}

/// States that a new child is a family by itself. A family that makes the same calls and finds the same in two runs,
/// from states in which it has the same, has the same at their ends. It computes nothing.
pub fn newborns_are_families()
    ensures newborns { NewbornsAreFamilies }
    ensures ends { FamiliesEndTheSame }
{}

/// States that other processes cannot refuse a call. A call that would complete still completes after their events. The
/// exceptions are Offer, Withdraw, Accept, Spawn and Fork: the clause lists the events that make each of them
/// impossible, and the one refusal that it gets then. So it is in each run. It computes nothing.
#[tactic(auto, using(crate::proofs::Losses::others_never_refuse, crate::proofs::Availability::runs_never_refuse, crate::proofs::Served::runs_are_served))]
pub fn others_never_refuse()
    ensures events { OthersNeverRefuse }
    ensures runs { RunsNeverRefuse }
    ensures served { RunsAreServed }
{}
