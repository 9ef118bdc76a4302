//! What a page of a process shows without a call.

use address_space::Cell;

/// What stands at a mapped page.
#[derive(Clone, Copy, Debug, PartialEq, Eq)]
pub struct PageState {
    /// Its flags, and how many slots its group has.
    pub cell: Cell,
    /// It has no frame of its own yet.
    pub lazy: bool,
}
