//! Why a call is refused.

/// Why a call is refused.
#[derive(Clone, Copy, Debug, PartialEq, Eq)]
pub enum Cause {
    /// The process is not live.
    NoProcess = 1,
    /// The page lies outside the user range.
    BadPage = 2,
    /// The page is not mapped. Number 3 is of no cause.
    NotMapped = 4,
    /// The page is mapped already.
    Mapped = 5,
    /// The process has no room left in its quota.
    Quota = 6,
    /// The process may not have the right that the call requests.
    Rights = 7,
    /// The offer is to the offerer itself.
    SelfOffer = 8,
    /// The process to which the offer is made is not live.
    NoTarget = 9,
    /// Such an offer is pending already.
    OfferPending = 10,
    /// As many offers of this process are pending as may be.
    TooManyOffers = 11,
    /// There is no such offer.
    NoOffer = 12,
    /// No process number is free.
    TableFull = 13,
    /// A quota of 0 was asked for.
    BadQuota = 14,
    /// The process has live children.
    HasChildren = 15,
    /// The root does not exit.
    RootExit = 16,
    /// The quota is less than what a copy of the process costs.
    TooSmall = 17,
}
