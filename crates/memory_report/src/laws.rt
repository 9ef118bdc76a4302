//! Laws of histories and reports. Each is the contract of a function that computes nothing.

ghost use Rattle.memory_report.specs.Laws.{BeginsLegal, EmptyIsLegal, GrowsLegal, HistoriesAreGuarded, HistoriesAreIsolated, OthersMakeNoDifference, TotalIsCost};

/// What is logged of one call after another, from the opening, is a legal history, and so is each
/// beginning of one. It computes nothing.
pub fn runs_are_legal()
    ensures empty { EmptyIsLegal }
    ensures grows { GrowsLegal }
    ensures begins { BeginsLegal }
{}

/// States that in every legal history a new process gets the replies that it would get alone, after the entry that made
/// it and up to its first Exit. Alone it is process 1 of a machine, with its quota and the pages that it got from a
/// fork. It must make no Offer, Accept, Spawn or Fork, refused ones included. These are also the machine's replies if
/// the later events of all others are left out. So in the history of a kernel neither other processes nor the order in
/// which their threads' calls come have an effect on it. It computes nothing.
pub fn histories_are_isolated()
    ensures alone { HistoriesAreIsolated }
    ensures others { OthersMakeNoDifference }
{}

/// States what holds from each place of a legal history on. The members of any set get the replies that they would get
/// in any run from a state that looks the same to them. In that run they make the same calls, find the same, and others
/// use no channel to them. A set that shares and offers nothing outside, and keeps within itself, stays so, and keeps
/// through the calls of others what it had. As a family it gets the same replies, whatever others do. A call that would
/// complete still completes after calls of others, except for the few that these can make impossible. It computes
/// nothing.
pub fn histories_are_guarded()
    ensures { HistoriesAreGuarded }
{}

/// The total of a report of a well-formed state is what all live processes cost together. It computes
/// nothing.
pub fn reports_add_up_costs()
    ensures { TotalIsCost }
{}
