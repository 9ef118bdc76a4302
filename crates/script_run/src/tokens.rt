//! The tokens of a line: the runs of bytes other than the space.

ghost use Rattle.std.specs.Prelude.{◌≡◌, ◌<◌, ◌≤◌, [], ◌∷◌, true, false, length, slice_index, MatchOption, position};
ghost use Rattle.script_run.specs.Tokens.{is_space, is_visible, tokens_of};
ghost use Rattle.script_run.specs.Operands.{is_trimmed, is_word, is_first};
ghost use Rattle.script_run.specs.Lines as line;

/// Where the first byte other than a space stands, wherever that is.
#[inline(never)]
fn seek_visible(bytes: &[u8]) -> Option<usize>
    ensures { result ≡ position is_visible bytes.now }
{
    bytes.iter().position(|byte| *byte != b' ')
}

/// Where the first byte other than a space stands: most often it is the first or the second.
#[inline(always)]
fn first_visible(bytes: &[u8]) -> Option<usize>
    ensures { result ≡ position is_visible bytes.now }
{
    match bytes {
        [] => None,
        [first, ..] if *first != b' ' => Some(0),
        [_, second, ..] if *second != b' ' => Some(1),
        _ => seek_visible(bytes),
    }
}

/// The bytes from the first token on; none where only spaces are left.
#[inline(always)]
pub fn trimmed(bytes: &[u8]) -> &[u8]
    ensures tokens { tokens_of result.now ≡ tokens_of bytes.now }
    ensures front { is_trimmed result.now ≡ true }
{
    match first_visible(bytes) {
        Some(start) => &bytes[start..],
        None => &[],
    }
}

/// Whether only spaces are left.
#[inline(always)]
pub fn is_blank(bytes: &[u8]) -> bool
    ensures { result ≡ line.is_blank (tokens_of bytes.now) }
{
    trimmed(bytes).is_empty()
}

/// Whether the token in front ends at this place: a space stands there, or nothing.
#[inline(always)]
pub fn ends_at(line: &[u8], place: usize) -> bool
    requires { place ≤ length line.now }
    ensures ends { result ≡ true → place < length line.now → slice_index line.now place ≡ 32 }
    ensures goes_on { result ≡ false → (place < length line.now) × (slice_index line.now place ≡ 32 → ⊥) }
{
    place == line.len() || line[place] == b' '
}

/// The bytes behind a word that is the first token; None if another is, or none. It looks for no end of the token. No space
/// is in front.
#[inline(always)]
pub fn after<'a>(line: &'a [u8], word: &[u8]) -> Option<&'a [u8]>
    requires front { is_trimmed line.now ≡ true }
    requires word { is_word word.now ≡ true }
    ensures { MatchOption result (is_first word.now (tokens_of line.now) ≡ false)
        (λ rest. tokens_of line.now ≡ word.now ∷ tokens_of rest.now) }
{
    if line.len() < word.len() || !ends_at(line, word.len()) {
        return None;
    }
    for place in 0..word.len() {
        if line[place] != word[place] {
            return None;
        }
    }
    Some(&line[word.len()..])
}

/// Where the first space stands.
fn first_space(bytes: &[u8]) -> Option<usize>
    ensures { result ≡ position is_space bytes.now }
{
    bytes.iter().position(|byte| *byte == b' ')
}

/// The first token, and the bytes after it; None where only spaces are left.
#[inline(always)]
pub fn first_token(line: &[u8]) -> Option<(&[u8], &[u8])>
    ensures { MatchOption result (tokens_of line.now ≡ [])
        (λ found. tokens_of line.now ≡ found.0.now ∷ tokens_of found.1.now) }
{
    let line = trimmed(line);
    if line.is_empty() {
        return None;
    }
    let end = first_space(line).unwrap_or(line.len());
    Some(line.split_at(end))
}
