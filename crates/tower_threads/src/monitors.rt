//! A monitor reads what is published.

ghost use Rattle.std.specs.Prelude.{◌≡◌, ◌≢◌, ◌+◌, ◌≤◌, IfSome, None, length, false};
ghost use Rattle.core_handover.specs.Histories.{last_core};
ghost use Rattle.memory_report.specs.Reports.{report_of};
ghost use Rattle.tower_threads.specs.Calls.{IsRead};
ghost use Rattle.tower_threads.specs.Handles.{IsTowerMonitor};
ghost use Rattle.tower_threads.specs.Rows.{AreRows, row_numbers};

use crate::handles::{TowerMonitor, put_monitor, take_monitor};
use core_handover::Monitor;
use memory_report::{Report, Row};
use page_words::Pid;
use std::alloc::Global;

/// What a report says of one process.
#[repr(C)]
#[derive(Clone, Copy)]
pub struct TowerRow {
    /// Whether it is live. If it isn't, the other numbers are 0.
    pub live: bool,
    /// The process that gave the quota.
    pub parent: u8,
    /// How many frames it may use and give in all, is charged for, and has given.
    pub quota: u32,
    pub used: u32,
    pub given: u32,
}

/// A row as numbers.
fn row_from(row: Option<Row>) -> TowerRow
    ensures { result ≡ row_numbers row }
{
    match row {
        Some(row) => TowerRow {
            live: true,
            parent: row.parent.number(),
            quota: row.quota,
            used: row.used,
            given: row.given,
        },
        None => TowerRow {
            live: false,
            parent: 0,
            quota: 0,
            used: 0,
            given: 0,
        },
    }
}

/// Writes the rows of the processes from 0 on, as many as the slice has, up to 64.
fn tell_rows(report: &Report, rows: &mut [TowerRow])
    ensures { AreRows report.now 64 rows.old rows.new }
{
    let count = if rows.len() < 64 { rows.len() } else { 64 };
    for number in 0..count {
        rows[number] = row_from(report.row(Pid::new(number as u8).unwrap()));
    }
}

/// Reads the newest report. The status is 0, or 1 if others came between at each of many lookups: the report is then the
/// one before. It is 5 if there is no monitor in the handle. `count` becomes how often the core was given back before the
/// report. Each row of the slice, up to 64, becomes what it says of the process of that number. What a monitor reads
/// never goes back. It needs no core, and never waits.
#[unsafe(no_mangle)]
pub extern "C" fn tower_monitor_read(
    alloc: Global,
    handle: &mut TowerMonitor,
    count: &mut u64,
    rows: &mut [TowerRow],
) -> u32
    requires { IsTowerMonitor handle.old }
    ensures kept { IsTowerMonitor handle.new }
    ensures statuses { result ≤ 5 }
    ensures read { IfSome handle.old.hold.monitor (λ known. IsRead known handle.new.hold.monitor) }
    ensures count { IfSome handle.new.hold.monitor (λ known. length known.log ≡ count.new + 1) }
    ensures rows { IfSome handle.new.hold.monitor
        (λ known. AreRows (report_of (last_core known.log).state) 64 rows.old rows.new) }
    ensures none { handle.old.live ≡ false → result ≡ 5 }
{
    let Some(mut monitor) = take_monitor(alloc, handle) else {
        return 5;
    };
    let is_new = monitor.read();
    *count = monitor.page().front().count();
    tell_rows(&monitor.page().report(), rows);
    put_monitor(handle, monitor);
    if is_new { 0 } else { 1 }
}

/// Frees a monitor.
#[unsafe(no_mangle)]
pub extern "C" fn tower_monitor_free(alloc: Global, handle: &mut TowerMonitor)
    requires { IsTowerMonitor handle.old }
    ensures { (handle.new.live ≡ false) × (handle.new.hold.monitor ≡ None) }
{
    let _monitor = take_monitor(alloc, handle);
}
