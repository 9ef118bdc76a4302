//! Reports: what each live process may use, uses and gives.

ghost use Rattle.std.specs.Prelude.{◌≡◌, ◌≤◌, ◌<◌, ◌^◌, IsTrue, ◌↔◌, None, length, slice_index_or};
ghost use Rattle.memory_report.specs.Reports.{Absorbs, report_of, row_of, row_from, total_of};
ghost use Rattle.memory_report.specs.Rows.{absorbed, IsRoomy};
ghost use Rattle.process_table.specs.State.{open_with};

use crate::entries::LogEntry;
use crate::rows::{Row, Rows, absorb_entry, put, row_at, total_used};
use kernel_calls::{Core, runs_stay_well_formed};
use page_words::Pid;
use quota_tree::Container;
use std::marker::Model;

/// A report on the state of all containers. A contract sees it as its rows: one for each number of a
/// process, 0 to 63, which is None where that process is not live.
#[derive(Clone, Copy, Debug, PartialEq, Eq)]
pub struct Report {
    rows: Rows,
}

impl Model for Report {
    ghost use Rattle.std.specs.Prelude.{List, Option, ◌≡◌, length};
    ghost use Rattle.memory_report.specs.declared.rows.Row.{Row};

    ghost Value = { List (Option Row) };

    ghost view = { λ report. report.rows };

    ghost inverse = { λ rows. record { rows = rows } };
}

fn root_pid() -> Pid
    ensures { result ≡ 0 }
{
    Pid::new(0).unwrap()
}

/// The row of a container.
fn row_told(container: &Container) -> Row
    ensures { result ≡ row_from container.now }
{
    Row {
        parent: container.parent,
        quota: container.quota,
        used: container.used,
        given: container.given,
    }
}

impl Report {
    /// All rows, by number.
    pub(crate) fn rows(&self) -> &Rows
        ensures { result.now ≡ self.now }
    {
        &self.rows
    }

    /// The report of a machine of that many frames, 16 to 1,048,576, as it boots.
    pub fn boot(frames: u32) -> Report
        requires { (16 ≤ frames) × (frames ≤ 1048576) }
        ensures { result ≡ report_of (open_with frames) }
    {
        let mut rows = [None; 64];
        let root = Row {
            parent: root_pid(),
            quota: frames - 1,
            used: 1,
            given: 0,
        };
        put(&mut rows, root_pid(), Some(root));
        Report { rows }
    }

    /// What is reported of a process; None where it is not live.
    pub fn row(&self, pid: Pid) -> Option<Row>
        ensures { result ≡ slice_index_or self.now pid None }
    {
        row_at(&self.rows, pid)
    }

    /// How many frames all live processes are charged for together.
    pub fn total(&self) -> u64
        ensures { result ≡ total_of self.now }
    {
        total_used(&self.rows)
    }

    /// Takes in one entry. Where it ends a legal history, the report of the state before it becomes that
    /// of the state after it; of any other entry nothing is said, and no number leaves its range.
    pub fn absorb(&mut self, entry: &LogEntry)
        ensures { Absorbs self.old entry.now self.new }
    {
        runs_stay_well_formed();
        absorb_entry(&mut self.rows, entry);
    }
}

/// The row of a process; None where it is not live.
fn row_in(core: &Core, pid: Pid) -> Option<Row>
    ensures { result ≡ row_of core.now.state pid }
{
    core.container(pid).map(|container| row_told(&container))
}

/// The report on a core.
pub fn report_of(core: &Core) -> Report
    ensures { result ≡ report_of core.now.state }
{
    let mut rows = [None; 64];
    for number in 0..64u8 {
        let pid = Pid::new(number).unwrap();
        put(&mut rows, pid, row_in(core, pid));
    }
    Report { rows }
}
