//! Worked runs, as theorems on the definitions of the machine: they are computed from them.

ghost use Rattle.kernel_laws.specs.WorkedAuthority.{PassedOn, MoreThanTheGiverHas, OfferedPageShows, TwoSlotsOnePage, TwoSlotsTwoPages, BehindItsBack, NumberComesAgain, CopiesPassOn, TwoHaveOnePage, TwoHaveTwoPages, BirthsShow, ExitShows, ExitEndsOffers, FamilyGrows, FamilyHears};
ghost use Rattle.kernel_laws.specs.WorkedRuns.{Empty, MapStoreLoad, OneProcessIsFull, FramesComeBack, UserRangeEdges, DemandZero, TableIsCharged, UnmapReturnsTable, LazyPage};
ghost use Rattle.kernel_laws.specs.WorkedAccesses.{AcrossTwoPages, BothPagesOrNeither, FaultsAtTheFirstByte, AcrossTwoRegions, AcrossOneGroup};
ghost use Rattle.kernel_laws.specs.WorkedForks.{ForkCopies, ForkOfShared};
ghost use Rattle.kernel_laws.specs.WorkedProcesses.{QuotaRefuses, ExitReturnsQuota, ProcessTableFull};
ghost use Rattle.kernel_laws.specs.WorkedIsolation.{ToldAlone, ToldBesideTheRoot, ToldBesideNoise, OwnOfNoise, CopyToldAlone, CopyToldBeside};
ghost use Rattle.kernel_laws.specs.WorkedSharing.{ShareBothWays, LazyShare, UnmapDropsOffers, ReadOnlyShare, OwnerLeaves, Flags, RefusalsInOrder, OfferLimit, ExitDropsOffers};

/// Runs of one process give the answers that they must. It computes nothing.
pub fn worked_runs()
    ensures empty { Empty }
    ensures map_store_load { MapStoreLoad }
    ensures one_process_is_full { OneProcessIsFull }
    ensures frames_come_back { FramesComeBack }
    ensures user_range_edges { UserRangeEdges }
    ensures demand_zero { DemandZero }
    ensures table_is_charged { TableIsCharged }
    ensures unmap_returns_table { UnmapReturnsTable }
    ensures lazy_page { LazyPage }
{}

/// Runs of accesses at any address give the answers that they must. It computes nothing.
pub fn worked_runs_of_accesses()
    ensures across_two_pages { AcrossTwoPages }
    ensures both_pages_or_neither { BothPagesOrNeither }
    ensures faults_at_the_first_byte { FaultsAtTheFirstByte }
    ensures across_two_regions { AcrossTwoRegions }
    ensures across_one_group { AcrossOneGroup }
{}

/// Runs of several processes give the answers that they must. It computes nothing.
pub fn worked_runs_of_processes()
    ensures quota_refuses { QuotaRefuses }
    ensures exit_returns_quota { ExitReturnsQuota }
    ensures process_table_full { ProcessTableFull }
{}

/// Runs of processes with pages in common give the answers that they must. It computes nothing.
pub fn worked_runs_of_sharing()
    ensures share_both_ways { ShareBothWays }
    ensures lazy_share { LazyShare }
    ensures unmap_drops_offers { UnmapDropsOffers }
    ensures read_only_share { ReadOnlyShare }
    ensures owner_leaves { OwnerLeaves }
    ensures flags { Flags }
    ensures refusals_in_order { RefusalsInOrder }
    ensures offer_limit { OfferLimit }
    ensures exit_drops_offers { ExitDropsOffers }
{}

/// Runs of processes that copy themselves give the answers that they must. It computes nothing.
pub fn worked_runs_of_forks()
    ensures fork_copies { ForkCopies }
    ensures fork_of_shared { ForkOfShared }
{}

/// States that a process gets the same replies alone and next to another, with 16 frames and with 64. It computes
/// nothing.
pub fn worked_runs_of_isolation()
    ensures alone { ToldAlone }
    ensures beside_the_root { ToldBesideTheRoot 16 }
    ensures beside_noise { ToldBesideNoise 16 }
    ensures larger { ToldBesideTheRoot 64 × ToldBesideNoise 64 }
    ensures part { OwnOfNoise }
    ensures copy_alone { CopyToldAlone }
    ensures copy_beside { CopyToldBeside 16 × CopyToldBeside 64 }
{}

/// Runs in which processes share pages, pass them on and see each other's stores give the answers that they
/// must. It computes nothing.
pub fn worked_runs_of_authority()
    ensures passed_on { PassedOn }
    ensures more_than_the_giver_has { MoreThanTheGiverHas }
    ensures offered_page_shows { OfferedPageShows }
    ensures two_slots_one_page { TwoSlotsOnePage }
    ensures two_slots_two_pages { TwoSlotsTwoPages }
    ensures behind_its_back { BehindItsBack }
    ensures number_comes_again { NumberComesAgain }
    ensures copies_pass_on { CopiesPassOn }
    ensures two_have_one_page { TwoHaveOnePage }
    ensures two_have_two_pages { TwoHaveTwoPages }
    ensures births_show { BirthsShow }
    ensures exit_shows { ExitShows }
    ensures exit_ends_offers { ExitEndsOffers }
    ensures family_grows { FamilyGrows }
    ensures family_hears { FamilyHears }
{}
