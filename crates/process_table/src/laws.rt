//! Laws of the machine's definitions. Each is the contract of a function that computes nothing.

ghost use Rattle.process_table.specs.Words.{AcceptKeeps, CallsKeepAlike, CallsLeaveOthers, ChildrenBeginAlone, ExitKeeps, ForkKeeps, LoadKeeps, MapKeeps, OfferKeeps, OpeningIsWellFormed, ProtectKeeps, RefusalsAlike, RootStays, SpawnKeeps, StandsForOne, StoreKeeps, TotalIsWithin, UnmapKeeps, ValuesAlike, WithdrawKeeps};

/// States that an image represents at most one pair of spaces and book. It computes nothing.
pub fn images_stand_for_one()
    ensures { StandsForOne }
{}

/// The machine boots in a well formed state, and each call that is not refused keeps states well
/// formed; in such a state the live processes cost no more than the root's quota. It computes nothing.
pub fn calls_keep_states_well_formed()
    ensures opening { OpeningIsWellFormed }
    ensures map { MapKeeps }
    ensures unmap { UnmapKeeps }
    ensures protect { ProtectKeeps }
    ensures offer { OfferKeeps }
    ensures withdraw { WithdrawKeeps }
    ensures accept { AcceptKeeps }
    ensures spawn { SpawnKeeps }
    ensures fork { ForkKeeps }
    ensures exit { ExitKeeps }
    ensures load { LoadKeeps }
    ensures store { StoreKeeps }
    ensures root { RootStays }
    ensures total { TotalIsWithin }
{}

/// States what holds of a process apart: one that is live, is not the root, has no child, offers no page and shares
/// none. Its replies, and what its calls do to it, depend only on its own pages and quota. The calls of others leave it
/// as it was. A new child begins as one alone. It computes nothing.
pub fn processes_apart_stand_alone()
    ensures refusals { RefusalsAlike }
    ensures values { ValuesAlike }
    ensures calls { CallsKeepAlike }
    ensures others { CallsLeaveOthers }
    ensures children { ChildrenBeginAlone }
{}
