//! The rows of a report, one for each number of a process, and what one event does to them.

ghost use Rattle.std.specs.Prelude.{◌≡◌, ◌+◌, ◌<◌, ◌≤◌, ◌^◌, None, Some, true, slice_index_or, slice_set};
ghost use Rattle.kernel_calls.specs.Machine.{completes};
ghost use Rattle.memory_report.specs.Reports.{total_of};
ghost use Rattle.memory_report.specs.Rows.{absorbed, after_call, closed, HasRoom, IsRoomy, opened, with_given_back, with_used};

use crate::entries::LogEntry;
use kernel_calls::{Call, Reply};
use page_words::Pid;

/// What a report says of one live process.
#[derive(Clone, Copy, Debug, PartialEq, Eq)]
pub struct Row {
    /// The process that gave the quota; for process 0, itself.
    pub parent: Pid,
    /// How many frames the process may use and give in all.
    pub quota: u32,
    /// How many frames the process is charged for.
    pub used: u32,
    /// The sum of the quotas of its live children.
    pub given: u32,
}

/// A row for each number of a process, 0 to 63; None where that process is not live.
pub(crate) type Rows = [Option<Row>; 64];

pub(crate) fn row_at(rows: &Rows, pid: Pid) -> Option<Row>
    ensures { result ≡ slice_index_or rows.now pid None }
{
    rows[pid.number() as usize]
}

pub(crate) fn put(rows: &mut Rows, pid: Pid, row: Option<Row>)
    ensures { rows.new ≡ slice_set rows.old pid row }
{
    rows[pid.number() as usize] = row;
}

/// A process is charged that much.
fn charge(rows: &mut Rows, pid: Pid, used: u32)
    ensures { rows.new ≡ with_used rows.old pid used }
{
    let row = row_at(rows, pid).map(|row| Row { used, ..row });
    put(rows, pid, row);
}

/// A process gets a quota back that it gave.
fn give_back(rows: &mut Rows, pid: Pid, quota: u32)
    ensures { rows.new ≡ with_given_back rows.old pid quota }
{
    let row = row_at(rows, pid).map(|row| {
        let given = row.given.saturating_sub(quota);
        Row { given, ..row }
    });
    put(rows, pid, row);
}

/// A process gives a quota to a child, which is charged that much. The sum of what it gives does not
/// grow past the largest number.
fn open_child(rows: &mut Rows, pid: Pid, quota: u32, child: Pid, used: u32)
    ensures { HasRoom rows.old pid quota → rows.new ≡ opened rows.old pid quota child used }
{
    let Some(parent) = row_at(rows, pid) else {
        return;
    };
    let given = parent.given.saturating_add(quota);
    put(rows, pid, Some(Row { given, ..parent }));
    let row = Row {
        parent: pid,
        quota,
        used,
        given: 0,
    };
    put(rows, child, Some(row));
}

/// A process ends, and its quota returns to its parent.
fn close(rows: &mut Rows, pid: Pid)
    ensures { rows.new ≡ closed rows.old pid }
{
    let Some(row) = row_at(rows, pid) else {
        return;
    };
    give_back(rows, row.parent, row.quota);
    put(rows, pid, None);
}

/// What a call that was neither refused nor a fault leaves.
fn absorb_call(rows: &mut Rows, pid: Pid, call: &Call, reply: &Reply, used_after: u32)
    ensures { IsRoomy rows.old pid call.now → rows.new ≡ after_call rows.old pid call.now reply.now used_after }
{
    match (*call, *reply) {
        (Call::Spawn { quota }, Reply::Child(child)) => open_child(rows, pid, quota, child, 1),
        (Call::Spawn { .. }, _) => {}
        (Call::Fork { quota }, Reply::Child(child)) => {
            open_child(rows, pid, quota, child, used_after);
        }
        (Call::Fork { .. }, _) => {}
        (Call::Exit, _) => close(rows, pid),
        _ => charge(rows, pid, used_after),
    }
}

/// Takes in one entry; a refusal or a fault leaves all rows.
pub(crate) fn absorb_entry(rows: &mut Rows, entry: &LogEntry)
    ensures { (completes entry.now.reply ≡ true → IsRoomy rows.old entry.now.pid entry.now.call)
        → rows.new ≡ absorbed rows.old entry.now }
{
    match entry.reply {
        Reply::Refused(_) => {}
        Reply::Fault { .. } => {}
        _ => absorb_call(rows, entry.pid, &entry.call, &entry.reply, entry.used_after),
    }
}

/// How many frames the rows use together.
pub(crate) fn total_used(rows: &Rows) -> u64
    ensures { result ≡ total_of rows.now }
{
    let mut total = 0;
    for row in rows {
        if let Some(row) = row {
            total += u64::from(row.used);
        }
    }
    total
}
