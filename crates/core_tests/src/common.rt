//! What the tests share: the comparison that all assert by, and calls of processes on a core with their replies.

use kernel_calls::{Call, Core, Event, Page, Pid, Reply, Vaddr};
use std::fmt::Debug;
use std::process::Abort;

/// The first page of the user range.
const LOW: Page = Page(0x40000);

/// What was found is what was expected.
pub fn same<T: PartialEq + Debug>(rt: &impl Abort, found: &T, expected: &T) {
    assert_eq!(rt; found, expected);
}

/// The process of a number.
pub fn process(rt: &impl Abort, number: u8) -> Pid {
    Pid::new(number).expect(rt, "a number below 64")
}

/// So many zeros.
pub fn zeros<R: AllocGlobal + Abort>(rt: &R, count: usize) -> Vec<u8> {
    vec![in rt.alloc(); 0u8; count].ok().expect(rt, "memory")
}

/// A call of a process has this reply.
pub fn check(rt: &impl Abort, core: &mut Core, number: u8, call: Call, reply: Reply) {
    let pid = process(rt, number);
    same(rt, &core.step(&Event { cpu: 0, pid, call }), &reply);
}

/// A process's page has these flags (write, may, accessed, dirty) and so many holders.
pub fn info(
    rt: &impl Abort,
    core: &mut Core,
    number: u8,
    page: Page,
    flags: [bool; 4],
    holders: u32,
) {
    let [write, may, accessed, dirty] = flags;
    let info = Reply::Info {
        write,
        may,
        accessed,
        dirty,
        holders,
    };
    check(rt, core, number, Call::Info { page }, info);
}

/// From an address on, so many bytes of a process are mapped, and these are the first six; where none is, they are 9.
pub fn peek(rt: &impl Abort, core: &Core, number: u8, at: Vaddr, count: usize, bytes: [u8; 6]) {
    let mut out = [9; 6];
    let found = kernel_acts::peek(core, process(rt, number), at, &mut out);
    same(rt, &(found, out), &(count, bytes));
}

/// A process accepts the root's first page, as one of its own pages, with that right.
pub fn share(rt: &impl Abort, core: &mut Core, number: u8, page: Page, write: bool) {
    let (giver, target) = (process(rt, 0), process(rt, number));
    let offer = Call::Offer {
        page: LOW,
        target,
        write,
    };
    let accept = Call::Accept {
        giver,
        giver_page: LOW,
        page,
    };
    check(rt, core, 0, offer, Reply::Done);
    check(rt, core, number, accept, Reply::Done);
}
