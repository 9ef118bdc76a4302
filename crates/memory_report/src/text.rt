//! The text of a report, written line by line.

ghost use Rattle.std.specs.Prelude.{◌≡◌, [], ◌∷◌, ◌++◌, OnOk, OnErr};
ghost use Rattle.std.specs.Io.KnownBytes.{Appends};
ghost use Rattle.memory_report.specs.Reports.{total_of};
ghost use Rattle.memory_report.specs.Text.{line_of, report_text, row_text, total_line};
ghost use Rattle.text_output.specs.Output.{AppendsFront};

use crate::report::Report;
use crate::rows::{Row, Rows, total_used};
use arrayvec::ArrayVec;
use std::io::Write;
use text_output::{WriteFailed, push_decimal, push_number, push_word, write_whole};

/// Room for the longest line of a report.
const ROOM: usize = 128;

type Line = ArrayVec<u8, ROOM>;

impl Report {
    /// Writes a line for each live process, in ascending order of their numbers, and one for the total.
    ///
    /// WriteFailed where a write fails; what was written is then a front of the text.
    pub fn write_text<W: Write>(&self, writer: &mut W) -> Result<(), WriteFailed>
        ensures ok { OnOk result (Appends (W.contents writer.old) (W.contents writer.new) (report_text self.now)) }
        ensures err { OnErr result (AppendsFront (W.contents writer.old) (W.contents writer.new)
            (report_text self.now)) }
    {
        write_rows(self.rows(), writer)
    }
}

#[tactic(auto, unfolding(crate::specs::Text::report_text))]
fn write_rows<W: Write>(rows: &Rows, writer: &mut W) -> Result<(), WriteFailed>
    ensures ok { OnOk result (Appends (W.contents writer.old) (W.contents writer.new) (report_text rows.now)) }
    ensures err { OnErr result (AppendsFront (W.contents writer.old) (W.contents writer.new) (report_text rows.now)) }
{
    for (number, row) in rows.iter().enumerate() {
        write_row(number as u32, row, writer)?;
    }
    write_whole(writer, &total_line(total_used(rows)))
}

/// Writes the line of a process, where it is live.
#[tactic(auto, unfolding(crate::specs::Text::line_of))]
fn write_row<W: Write>(number: u32, row: &Option<Row>, writer: &mut W) -> Result<(), WriteFailed>
    ensures ok { OnOk result (Appends (W.contents writer.old) (W.contents writer.new) (line_of number row.now)) }
    ensures err { OnErr result (AppendsFront (W.contents writer.old) (W.contents writer.new) (line_of number row.now)) }
{
    match row {
        Some(row) => write_whole(writer, &row_line(number, row)),
        None => Ok(()),
    }
}

/// The line of a live process.
fn row_line(number: u32, row: &Row) -> Line
    ensures { result.items ≡ row_text number row.now ++ 10 ∷ [] }
{
    let mut line = ArrayVec::new();
    push_number(&mut line, "process ", number);
    push_number(&mut line, " parent ", u32::from(row.parent.number()));
    push_number(&mut line, " quota ", row.quota);
    push_number(&mut line, " used ", row.used);
    push_number(&mut line, " given ", row.given);
    line.push(b'\n');
    line
}

/// The line of the total.
#[tactic(auto, using(text_output::proofs::DecimalLemmas::long_decimal), unfolding(crate::specs::Text::total_line))]
fn total_line(total: u64) -> Line
    ensures { result.items ≡ total_line total }
{
    let mut line = ArrayVec::new();
    push_word(&mut line, "total ");
    push_decimal(&mut line, total);
    line.push(b'\n');
    line
}
