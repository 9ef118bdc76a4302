//! Lines built from words and numbers, and a writer that fails after so many bytes.

use crate::comparing::same;
use crate::streams::{BrokenWriter, Pieces};
use arrayvec::ArrayVec;
use std::process::Abort;
use text_output::{WriteFailed, push_decimal, push_number, push_word, write_whole};

#[test]
#[tactic(auto, using(text_output::proofs::DecimalLemmas::long_decimal))]
fn lines_are_words_and_numbers(rt: HostRuntime) {
    let mut line = ArrayVec::<u8, 48>::new();
    push_number(&mut line, "from ", 0);
    push_word(&mut line, " to ");
    push_decimal(&mut line, u64::MAX);
    same(
        &rt,
        &line.as_slice(),
        &b"from 0 to 18446744073709551615".as_slice(),
    );
}

/// A text to a writer that fails behind so many bytes: it has these bytes of it then.
fn check(rt: &impl Abort, text: &[u8], left: usize, written: &[u8]) {
    let mut writer = BrokenWriter::new(left, Pieces::Random(5));
    let ended = write_whole(&mut writer, text);
    let expected = if text.len() <= left {
        Ok(())
    } else {
        Err(WriteFailed)
    };
    same(rt, &ended, &expected);
    same(rt, &writer.written.as_slice(), &written);
}

#[test]
fn bytes_are_written_whole_or_cut_short(rt: HostRuntime) {
    check(&rt, b"", 0, b"");
    check(&rt, b"eleven byte", 0, b"");
    check(&rt, b"eleven byte", 1, b"e");
    check(&rt, b"eleven byte", 10, b"eleven byt");
    check(&rt, b"eleven byte", 11, b"eleven byte");
}
