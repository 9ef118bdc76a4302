//! The words of 32-bit paging: addresses, pages, frames, processes, and the words of page directories
//! and page tables, with the finite maps and sets that every contract above speaks in.
//!
//! The layout of an address and of a word is that of the Intel SDM, volume 3, chapter on paging,
//! 32-bit paging, without 4 MiB pages and without physical address extension. Bit 9 of a table word,
//! which the processor ignores, is this kernel's own: see `TableWord::may`.
#![tactic(auto)]

mod addresses;
mod faults;
mod maps;
mod words;

pub use addresses::{
    Frame, MAX_FRAMES, MIN_FRAMES, Page, Pid, Size, Vaddr, WIDE_FRAMES, in_user_range, index_of,
    offset_of, page_of, second_page, slot_of, start_of,
};
pub use faults::{MachineFault, WideFault, is_frame_count, is_wide_frame_count};
pub use maps::{
    keys_are_told_apart, maps_are_their_answers, sets_are_their_members, values_change_by_key,
};
pub use words::{
    DirWord, OfDirectory, OfTable, PagingWord, TableWord, fields_stand_alone,
    kernel_words_by_fields,
};
