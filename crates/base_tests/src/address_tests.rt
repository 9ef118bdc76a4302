//! Addresses and their parts.
use crate::comparing::same;
use page_words::{
    Page, Pid, Size, Vaddr, in_user_range, index_of, offset_of, page_of, second_page, slot_of,
    start_of,
};

#[test]
fn splits_the_last_user_address(rt: HostRuntime) {
    let last = Vaddr(0xefff_ffff);
    let page = page_of(last);
    same(&rt, &page, &Page(0xeffff));
    same(
        &rt,
        &(slot_of(page), index_of(page), offset_of(last)),
        &(959, 1023, 4095),
    );
    same(&rt, &start_of(page), &Vaddr(0xefff_f000));
    assert!(rt; in_user_range(page));
    assert!(rt; !in_user_range(Page(0xf0000)));
}

/// The second page of an access, by its number, and 0 where it has one page.
fn second(address: u32, size: Size) -> u32 {
    match second_page(Vaddr(address), size) {
        Some(page) => page.0,
        None => 0,
    }
}

#[test]
fn an_access_may_lie_in_two_pages(rt: HostRuntime) {
    same(
        &rt,
        &[
            second(0x4000_0ffc, Size::Four),
            second(0x4000_0ffd, Size::Four),
            second(u32::MAX, Size::Two),
        ],
        &[0, 0x40001, 0x100000],
    );
    same(
        &rt,
        &[Size::One, Size::Two, Size::Four].map(|size| size.bytes()),
        &[1, 2, 4],
    );
}

#[test]
fn numbers_processes_below_64(rt: HostRuntime) {
    same(
        &rt,
        &[0, 63, 64].map(|number| Pid::new(number).map(|pid| pid.number())),
        &[Some(0), Some(63), None],
    );
}
