//! The text of replies.

ghost use Rattle.std.specs.Prelude.{◌≡◌, ◌+◌, ◌<◌, ◌≤◌, ◌/◌, ◌%◌, ◌++◌, [], ◌∷◌, length, slice_index};
ghost use Rattle.std.specs.Char.{digit_char};
ghost use Rattle.arrayvec.specs.ArrayVec.{array_vec_len};
ghost use Rattle.script_run.specs.Replies.{eight_digits, name_of, bit_of, flags_of, reply_text, reply_line};

use arrayvec::ArrayVec;
use kernel_calls::{Cause, Reply};
use text_output::{push_number, push_word};

/// The most bytes of a block.
pub const BLOCK: usize = 65_536;

/// Room for the longest line that a reply has.
pub const ROOM: usize = 64;

/// The lines of replies, one behind another.
pub type Block = ArrayVec<u8, BLOCK>;

/// Eight hexadecimal digits in lower case.
#[tactic(auto, using(crate::proofs::DigitTable::digits_of_bytes))]
fn push_eight_digits(line: &mut Block, n: u32)
    requires { array_vec_len line.old + 8 ≤ 65536 }
    ensures items { line.new.items ≡ line.old.items ++ eight_digits n }
    ensures len { array_vec_len line.new ≡ array_vec_len line.old + 8 }
{
    let mut digits = [0; 8];
    hex::encode_to_slice(n.to_be_bytes(), &mut digits).unwrap();
    line.try_extend_from_slice(&digits).unwrap();
}

/// The name of a cause.
fn name_of(cause: Cause) -> &'static str
    ensures value { result.now ≡ name_of cause }
    ensures short { length result.now ≤ 13 }
{
    match cause {
        Cause::NoProcess => "NoProcess",
        Cause::BadPage => "BadPage",
        Cause::NotMapped => "NotMapped",
        Cause::Mapped => "Mapped",
        Cause::Quota => "Quota",
        Cause::Rights => "Rights",
        Cause::SelfOffer => "SelfOffer",
        Cause::NoTarget => "NoTarget",
        Cause::OfferPending => "OfferPending",
        Cause::TooManyOffers => "TooManyOffers",
        Cause::NoOffer => "NoOffer",
        Cause::TableFull => "TableFull",
        Cause::BadQuota => "BadQuota",
        Cause::HasChildren => "HasChildren",
        Cause::RootExit => "RootExit",
        Cause::TooSmall => "TooSmall",
    }
}

/// 1 where it is so, and 0 where not.
fn bit_of(flag: bool) -> &'static str
    ensures value { result.now ≡ bit_of flag }
    ensures short { length result.now ≡ 1 }
{
    if flag { "1" } else { "0" }
}

/// The four flags, one space between.
fn push_flags(line: &mut Block, write: bool, may: bool, accessed: bool, dirty: bool)
    requires { array_vec_len line.old + 7 ≤ 65536 }
    ensures items { line.new.items ≡ line.old.items ++ flags_of write may accessed dirty }
    ensures len { array_vec_len line.new ≡ array_vec_len line.old + 7 }
{
    push_word(line, bit_of(write));
    push_word(line, " ");
    push_word(line, bit_of(may));
    push_word(line, " ");
    push_word(line, bit_of(accessed));
    push_word(line, " ");
    push_word(line, bit_of(dirty));
}

/// What a reply says, without the line feed.
fn push_text(line: &mut Block, reply: &Reply)
    requires { array_vec_len line.old + 63 ≤ 65536 }
    ensures items { line.new.items ≡ line.old.items ++ reply_text reply.now }
    ensures len { array_vec_len line.new ≤ array_vec_len line.old + 63 }
{
    match *reply {
        Reply::Done => push_word(line, "done"),
        Reply::Value(value) => {
            push_word(line, "value ");
            push_eight_digits(line, value);
        }
        Reply::Child(child) => push_number(line, "child ", u32::from(child.number())),
        Reply::Info {
            write,
            may,
            accessed,
            dirty,
            holders,
        } => {
            push_word(line, "info ");
            push_flags(line, write, may, accessed, dirty);
            push_number(line, " ", holders);
        }
        Reply::Quota { quota, used, given } => {
            push_number(line, "quota ", quota);
            push_number(line, " ", used);
            push_number(line, " ", given);
        }
        Reply::Fault { addr, code } => {
            push_word(line, "fault ");
            push_eight_digits(line, addr.0);
            push_number(line, " ", u32::from(code));
        }
        Reply::Refused(cause) => {
            push_word(line, "refused ");
            push_word(line, name_of(cause));
        }
    }
}

/// Puts a reply's line, with its line feed, behind what stands there, where there is room for the longest.
pub fn push_reply_line(lines: &mut Block, reply: &Reply)
    requires { array_vec_len lines.old + 64 ≤ 65536 }
    ensures { lines.new.items ≡ lines.old.items ++ reply_line reply.now }
{
    push_text(lines, reply);
    lines.push(b'\n');
}
