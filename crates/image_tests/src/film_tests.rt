//! Films of scripts: their rows compared with ones that were written down, how they end, their pages, and what is
//! refused.

use crate::comparing::{same, same_bytes};
use crate::map_tests::times;
use base_tests::streams::{BrokenReader, FullWriter, Pieces};
use command_answers::{Answer, ToolFault};
use map_jobs::{film_script, write_film};
use script_film::{End, Film, ScriptFault, film_of};
use std::process::Abort;

/// A line without an event, a page that is stored to, a load that sets nothing anew, and a neighbouring page.
const SCRIPT: &str =
    "# a <page>\n0 0 store 40000000 4 7\n0 0 load 40000001 2\n0 0 map 40001 ro\n0 0 unmap 40000";

/// By docs/MACHINE.md: 8199 is frame 2 with P, R/W and U/S; 14951 frame 3 with A, D, may and granted set too; 1541 a
/// lazy word with may.
const ROWS: &str = "frames 16
role 0 F R
role 1 F D0
process 0 - 0,15,1,0,1
line # a \\3cpage>
line 0 0 store 40000000 4 7
reply done
role 2 F T0.256
role 3 F P1
word 1 256 0 8199
word 2 0 0 14951
word 3 0 0 7
process 0 0,15,1,0,1 0,15,3,0,1
line 0 0 load 40000001 2
reply value 00000000
line 0 0 map 40001 ro
reply done
word 2 1 0 1541
process 0 0,15,3,0,1 0,15,4,0,1
line 0 0 unmap 40000
reply done
role 3 P1 F
word 2 0 14951 0
word 3 0 7 0
process 0 0,15,4,0,1 0,15,3,0,1
end whole
";

/// The film of a script.
fn film<R: AllocGlobal + Abort>(rt: &R, script: &str) -> Film {
    film_of(rt.alloc(), 16, script.as_bytes())
        .ok()
        .expect(rt, "a film")
}

/// A film of a script has these rows, and ends so.
fn check_rows<R: AllocGlobal + Abort>(rt: &R, script: &str, rows: &str, end: End) {
    let film = film(rt, script);
    same_bytes(rt, &film.rows, rows.as_bytes());
    same(rt, &film.end, &end);
}

#[test]
fn films_tell_lines_replies_and_changes(rt: HostRuntime) {
    check_rows(&rt, SCRIPT, ROWS, End::Whole);
}

/// The last rows of a film, and how it ends.
fn check_last<R: AllocGlobal + Abort>(rt: &R, script: &str, last: &str, end: End) {
    let film = film(rt, script);
    same(
        rt,
        &(film.rows.ends_with(last.as_bytes()), film.end),
        &(true, end),
    );
}

#[test]
fn a_film_ends_before_a_malformed_line(rt: HostRuntime) {
    let last = "line 0 0 quota\nreply quota 15 1 0\nend malformed 2\n";
    let malformed = End::Malformed { line: 2 };
    check_last(&rt, "0 0 quota\n0 0 quota 1\n0 0 exit\n", last, malformed);
    check_last(
        &rt,
        "0 0 quota\n",
        "reply quota 15 1 0\nline \nend whole\n",
        End::Whole,
    );
}

/// A machine of so many frames has no film.
fn check_refused<R: AllocGlobal + Abort>(rt: &R, frames: u32) {
    let fault = film_of(rt.alloc(), frames, b"").err();
    same(rt, &(frames, fault), &(frames, Some(ScriptFault::BadSize)));
}

#[test]
fn films_of_other_sizes_are_refused(rt: HostRuntime) {
    check_refused(&rt, 15);
    check_refused(&rt, 4097);
}

#[test]
fn a_page_has_the_rows_of_its_film_once(rt: HostRuntime) {
    let mut page = Vec::new(rt.alloc());
    let end = write_film(rt.alloc(), 16, SCRIPT.as_bytes(), &mut page).ok();
    same(&rt, &end, &Some(End::Whole));
    same(&rt, &times(&page, ROWS.as_bytes()), &1);
}

/// A film of a script whose read fails behind so many bytes, or of which no byte can be written.
fn broken<R: AllocGlobal + Abort>(rt: &R, left: usize) -> Answer {
    let input = BrokenReader {
        rest: SCRIPT.as_bytes(),
        left,
        pieces: Pieces::Single,
    };
    film_script(rt.alloc(), 16, input, &mut FullWriter::new(0))
}

/// An answer is this fault.
fn check_failed(rt: &impl Abort, answer: &Answer, fault: ToolFault) {
    match answer {
        Answer::Failed(found) => same(rt, found, &fault),
        _ => assert!(rt; false, "no fault"),
    }
}

#[test]
fn a_film_that_is_not_read_or_not_written_fails(rt: HostRuntime) {
    check_failed(&rt, &broken(&rt, 20), ToolFault::ReadFailed);
    check_failed(&rt, &broken(&rt, 1000), ToolFault::WriteFailed);
}
