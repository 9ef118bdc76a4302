//! A log that is absorbed entry by entry, and the text of a report.

use crate::common::{process, same};
use base_tests::streams::{BrokenWriter, Pieces};
use kernel_calls::{Call, Core, Event, Reply};
use memory_report::{LogEntry, Report, Row, WriteFailed, report_of};
use page_words::{Page, Pid, Size, Vaddr};
use std::alloc::Global;
use std::process::Abort;
use std::test::Fail;

const TEXT: &[u8] =
    b"process 0 parent 0 quota 15 used 3 given 5\nprocess 1 parent 0 quota 5 used 3 given 0\ntotal 6\n";

const PAGE: Page = Page(0x40000);

/// The report is that of the core, with this total.
fn check_total(rt: &impl Abort, core: &Core, report: &Report, total: u64) {
    same(rt, report, &report_of(core));
    same(rt, &report.total(), &total);
}

/// What is logged of an event, with that number of entries before it.
fn entry_of(event: &Event, nth: usize, reply: Reply, used_after: u32) -> LogEntry {
    LogEntry {
        cpu: event.cpu,
        nth,
        pid: event.pid,
        call: event.call,
        reply,
        used_after,
    }
}

/// Carries out an event on a core: the entry that is logged of it.
fn step(core: &mut Core, nth: usize, event: &Event) -> LogEntry {
    let decision = core.decide(event);
    let used_after = decision.used_after;
    entry_of(event, nth, core.commit(decision), used_after)
}

/// Carries out a call on a core, and absorbs what is logged of it.
fn absorb(core: &mut Core, report: &mut Report, nth: usize, pid: Pid, call: Call) {
    report.absorb(&step(core, nth, &Event { cpu: 0, pid, call }));
}

/// Process 0 stores to its first page, makes a child with a quota of 5, and shares the page with it.
fn share_a_page(core: &mut Core, report: &mut Report, root: Pid, child: Pid) {
    let store = Call::Store {
        addr: Vaddr(0x4000_0000),
        size: Size::Four,
        value: 7,
    };
    let offer = Call::Offer {
        page: PAGE,
        target: child,
        write: true,
    };
    let accept = Call::Accept {
        giver: root,
        giver_page: PAGE,
        page: PAGE,
    };
    absorb(core, report, 0, root, store);
    absorb(core, report, 1, root, Call::Spawn { quota: 5 });
    absorb(core, report, 2, root, offer);
    absorb(core, report, 3, child, accept);
}

fn check_row(rt: &impl Abort, report: &Report, pid: Pid, row: Option<Row>) {
    same(rt, &report.row(pid), &row);
}

fn check_text(rt: &impl Abort, alloc: Global, report: &Report, text: &[u8]) {
    let mut written = Vec::new(alloc);
    same(rt, &report.write_text(&mut written), &Ok(()));
    assert_eq!(rt; written.as_slice(), text);
}

#[test]
fn absorbs_a_history(rt: HostRuntime) -> Result<(), Fail> {
    let mut core = Core::boot(rt.alloc(), 16)?;
    let mut report = Report::boot(16);
    let (root, child) = (process(&rt, 0), process(&rt, 1));
    let row = Row {
        parent: root,
        quota: 5,
        used: 3,
        given: 0,
    };
    check_total(&rt, &core, &report, 1);
    share_a_page(&mut core, &mut report, root, child);
    check_total(&rt, &core, &report, 6);
    check_row(&rt, &report, child, Some(row));
    check_text(&rt, rt.alloc(), &report, TEXT);
    absorb(&mut core, &mut report, 4, child, Call::Exit);
    check_total(&rt, &core, &report, 3);
    check_row(&rt, &report, child, None);
    Ok(())
}

#[test]
fn stops_where_a_write_fails(rt: HostRuntime) {
    let report = Report::boot(16);
    let mut writer = BrokenWriter::new(20, Pieces::Whole);
    same(&rt, &report.write_text(&mut writer), &Err(WriteFailed));
    assert_eq!(rt;
        writer.written.as_slice(),
        b"process 0 parent 0 q".as_slice()
    );
}

#[test]
fn takes_in_any_entry(rt: HostRuntime) {
    let (root, child) = (process(&rt, 0), process(&rt, 63));
    let mut report = Report::boot(4096);
    let entry = LogEntry {
        cpu: 255,
        nth: 7,
        pid: root,
        call: Call::Spawn { quota: u32::MAX },
        reply: Reply::Child(child),
        used_after: u32::MAX,
    };
    report.absorb(&entry);
    report.absorb(&entry);
    let told = (
        report.row(root).map(|row| row.given),
        report.row(child).map(|row| row.quota),
    );
    same(&rt, &told, &(Some(u32::MAX), Some(u32::MAX)));
}
