//! A line of text, built from words and numbers.

ghost use Rattle.std.specs.Prelude.{◌≡◌, ◌+◌, ◌≤◌, ◌^◌, ◌++◌, length, decimal};
ghost use Rattle.arrayvec.specs.ArrayVec.{array_vec_len};

use arrayvec::ArrayVec;
use itoa::Buffer;

/// Puts a word behind what stands there, where there is room for it.
pub fn push_word<const ROOM: usize>(line: &mut ArrayVec<u8, ROOM>, word: &str)
    requires { array_vec_len line.old + length word.now ≤ ROOM }
    ensures items { line.new.items ≡ line.old.items ++ word.now }
    ensures len { array_vec_len line.new ≡ array_vec_len line.old + length word.now }
{
    line.try_extend_from_slice(word.as_bytes()).unwrap();
}

/// Puts a number in decimal behind what stands there, where there is room for its digits, of which it has
/// at most 20.
pub fn push_decimal<const ROOM: usize>(line: &mut ArrayVec<u8, ROOM>, n: u64)
    requires { array_vec_len line.old + length (decimal n) ≤ ROOM }
    ensures items { line.new.items ≡ line.old.items ++ decimal n }
    ensures len { array_vec_len line.new ≡ array_vec_len line.old + length (decimal n) }
{
    let mut buffer = Buffer::new();
    push_word(line, buffer.format(n));
}

/// Puts a word and a number of 32 bits in decimal, of at most 10 digits, behind what stands there.
#[tactic(auto, using(crate::proofs::DecimalLemmas::short_decimal))]
pub fn push_number<const ROOM: usize>(line: &mut ArrayVec<u8, ROOM>, word: &str, n: u32)
    requires { array_vec_len line.old + length word.now + 10 ≤ ROOM }
    ensures items { line.new.items ≡ line.old.items ++ word.now ++ decimal n }
    ensures len { array_vec_len line.new ≤ array_vec_len line.old + length word.now + 10 }
{
    push_word(line, word);
    push_decimal(line, u64::from(n));
}
