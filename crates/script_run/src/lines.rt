//! What a line of a script says.

ghost use Rattle.std.specs.Prelude.{◌≡◌, ◌<◌, ◌∷◌, [], true, Some, IfSome, if◌then◌else◌};
ghost use Rattle.std.specs.Option.{option_map};
ghost use Rattle.script_run.specs.Tokens.{tokens_of};

use super::numbers::{any_hexadecimal, digit_of, hexadecimal, number_below};
use super::tokens::{after, ends_at, first_token, is_blank, trimmed};
use kernel_calls::{Call, Event};
use page_words::{Page, Pid, Size, Vaddr};

/// The most bytes of a line, its line feed not counted.
pub const LINE: usize = 100;

/// The digits of an address as scripts mostly write it.
const ADDRESS: usize = 8;

/// The digits of a page as scripts mostly write it.
const PAGE: usize = 5;

/// What a line says.
#[derive(Clone, Copy, Debug, PartialEq, Eq)]
pub enum Line {
    /// A comment, whose first byte is `#`, or spaces alone.
    Skipped,
    Event(Event),
    Malformed,
}

// The clauses' words on lines name `Line`, and so stand below it.
ghost use Rattle.script_run.specs.declared.lines.Line.TheVariants as line;
ghost use Rattle.script_run.specs.Lines.{is_blank, cpu_of, process_of, size_of, right_of, quota_of, alone, process_call_of, sharing_call_of, call_of, line_of};
ghost use Rattle.script_run.specs.Numbers.{hexadecimal_number};
ghost use Rattle.script_run.specs.Operands.{is_trimmed, first_by, one_by, two_by, three_by, first_in, caller_by, event_by};
ghost use Rattle.kernel_calls.specs.declared.calls.Call.TheVariants as call;

/// `1`, `2` or `4`, bytes.
#[inline(always)]
fn size_by(byte: u8) -> Option<Size>
    ensures { result ≡ size_of (byte ∷ []) }
{
    match byte {
        b'1' => Some(Size::One),
        b'2' => Some(Size::Two),
        b'4' => Some(Size::Four),
        _ => None,
    }
}

/// The size that a token names.
fn size_named(token: &[u8]) -> Option<Size>
    ensures { result ≡ size_of token.now }
{
    match token {
        [byte] => size_by(*byte),
        _ => None,
    }
}

/// Whether the right is to write: `rw` or `ro`.
fn right_named(token: &[u8]) -> Option<bool>
    ensures { result ≡ right_of token.now }
{
    match token {
        b"rw" => Some(true),
        b"ro" => Some(false),
        _ => None,
    }
}

/// A size behind one space, and the bytes after it; None if the bytes begin in another way.
#[inline(always)]
fn next_size(line: &[u8]) -> Option<(Size, &[u8])>
    ensures { IfSome result (λ found. Some (found.0, tokens_of found.1.now) ≡ first_by size_of (tokens_of line.now)) }
{
    if line.len() < 2 || line[0] != b' ' || !ends_at(line, 2) {
        return None;
    }
    let size = size_by(line[1])?;
    Some((size, &line[2..]))
}

/// A size, and the bytes after it, wherever it begins.
#[inline(never)]
#[tactic(auto, unfolding(crate::specs::Operands::first_by))]
fn any_size(line: &[u8]) -> Option<(Size, &[u8])>
    ensures { option_map (λ found. (found.0, tokens_of found.1.now)) result ≡ first_by size_of (tokens_of line.now) }
{
    let (token, rest) = first_token(line)?;
    let size = size_named(token)?;
    Some((size, rest))
}

/// A size, and the bytes after it. One behind a single space is read in one pass.
#[inline(always)]
fn size_of(line: &[u8]) -> Option<(Size, &[u8])>
    ensures { option_map (λ found. (found.0, tokens_of found.1.now)) result ≡ first_by size_of (tokens_of line.now) }
{
    match next_size(line) {
        Some(found) => Some(found),
        None => any_size(line),
    }
}

/// A right, and the bytes after it, wherever it begins.
#[inline(never)]
#[tactic(auto, unfolding(crate::specs::Operands::first_by))]
fn any_right(line: &[u8]) -> Option<(bool, &[u8])>
    ensures { option_map (λ found. (found.0, tokens_of found.1.now)) result ≡ first_by right_of (tokens_of line.now) }
{
    let (token, rest) = first_token(line)?;
    let write = right_named(token)?;
    Some((write, rest))
}

/// A right, and the bytes after it. One behind a single space, at the line's end, is read in one pass.
#[inline(always)]
fn right_of(line: &[u8]) -> Option<(bool, &[u8])>
    ensures { option_map (λ found. (found.0, tokens_of found.1.now)) result ≡ first_by right_of (tokens_of line.now) }
{
    match line {
        b" rw" => Some((true, &[])),
        b" ro" => Some((false, &[])),
        _ => any_right(line),
    }
}

/// A call with all its operands, where no token is left.
#[inline(always)]
#[tactic(auto, unfolding(crate::specs::Lines::alone))]
fn alone(call: Call, line: &[u8]) -> Option<Call>
    ensures { result ≡ alone call (tokens_of line.now) }
{
    if is_blank(line) { Some(call) } else { None }
}

/// `load ADDR SIZE`.
#[inline(always)]
#[tactic(auto, unfolding(crate::specs::Operands::two_by))]
fn load_of(line: &[u8]) -> Option<Call>
    ensures { result ≡ two_by hexadecimal_number size_of call.Load (tokens_of line.now) }
{
    let (addr, rest) = hexadecimal(line, ADDRESS)?;
    let addr = Vaddr(addr);
    let (size, rest) = size_of(rest)?;
    alone(Call::Load { addr, size }, rest)
}

/// `store ADDR SIZE VALUE`.
#[inline(always)]
#[tactic(auto, unfolding(crate::specs::Operands::three_by))]
fn store_of(line: &[u8]) -> Option<Call>
    ensures { result ≡ three_by hexadecimal_number size_of hexadecimal_number call.Store (tokens_of line.now) }
{
    let (addr, rest) = hexadecimal(line, ADDRESS)?;
    let addr = Vaddr(addr);
    let (size, rest) = size_of(rest)?;
    let (value, rest) = any_hexadecimal(rest)?;
    alone(Call::Store { addr, size, value }, rest)
}

/// `map PAGE RIGHT`.
#[inline(always)]
#[tactic(auto, unfolding(crate::specs::Operands::two_by))]
fn map_of(line: &[u8]) -> Option<Call>
    ensures { result ≡ two_by hexadecimal_number right_of call.Map (tokens_of line.now) }
{
    let (page, rest) = hexadecimal(line, PAGE)?;
    let page = Page(page);
    let (write, rest) = right_of(rest)?;
    alone(Call::Map { page, write }, rest)
}

/// `unmap PAGE`.
#[inline(always)]
#[tactic(auto, unfolding(crate::specs::Operands::one_by))]
fn unmap_of(line: &[u8]) -> Option<Call>
    ensures { result ≡ one_by hexadecimal_number call.Unmap (tokens_of line.now) }
{
    let (page, rest) = hexadecimal(line, PAGE)?;
    let page = Page(page);
    alone(Call::Unmap { page }, rest)
}

/// `protect PAGE RIGHT`.
#[inline(never)]
#[tactic(auto, unfolding(crate::specs::Operands::two_by))]
fn protect_of(line: &[u8]) -> Option<Call>
    ensures { result ≡ two_by hexadecimal_number right_of call.Protect (tokens_of line.now) }
{
    let (page, rest) = hexadecimal(line, PAGE)?;
    let page = Page(page);
    let (write, rest) = right_of(rest)?;
    alone(Call::Protect { page, write }, rest)
}

/// `info PAGE`.
#[inline(never)]
#[tactic(auto, unfolding(crate::specs::Operands::one_by))]
fn info_of(line: &[u8]) -> Option<Call>
    ensures { result ≡ one_by hexadecimal_number call.Info (tokens_of line.now) }
{
    let (page, rest) = hexadecimal(line, PAGE)?;
    let page = Page(page);
    alone(Call::Info { page }, rest)
}

/// `offer PAGE process RIGHT`.
#[inline(always)]
#[tactic(auto, unfolding(crate::specs::Operands::three_by))]
fn offer_of(line: &[u8]) -> Option<Call>
    ensures { result ≡ three_by hexadecimal_number process_of right_of call.Offer (tokens_of line.now) }
{
    let (page, rest) = hexadecimal(line, PAGE)?;
    let page = Page(page);
    let (target, rest) = number_below(rest, 64)?;
    let target = Pid::new(target as u8)?;
    let (write, rest) = right_of(rest)?;
    alone(
        Call::Offer {
            page,
            target,
            write,
        },
        rest,
    )
}

/// `withdraw PAGE process`.
#[inline(never)]
#[tactic(auto, unfolding(crate::specs::Operands::two_by))]
fn withdraw_of(line: &[u8]) -> Option<Call>
    ensures { result ≡ two_by hexadecimal_number process_of call.Withdraw (tokens_of line.now) }
{
    let (page, rest) = hexadecimal(line, PAGE)?;
    let page = Page(page);
    let (target, rest) = number_below(rest, 64)?;
    let target = Pid::new(target as u8)?;
    alone(Call::Withdraw { page, target }, rest)
}

/// `accept process PAGE PAGE`: the giver, its page, and the own page.
#[inline(always)]
#[tactic(auto, unfolding(crate::specs::Operands::three_by))]
fn accept_of(line: &[u8]) -> Option<Call>
    ensures { result ≡ three_by process_of hexadecimal_number hexadecimal_number call.Accept (tokens_of line.now) }
{
    let (giver, rest) = number_below(line, 64)?;
    let giver = Pid::new(giver as u8)?;
    let (giver_page, rest) = hexadecimal(rest, PAGE)?;
    let giver_page = Page(giver_page);
    let (page, rest) = hexadecimal(rest, PAGE)?;
    let page = Page(page);
    alone(
        Call::Accept {
            giver,
            giver_page,
            page,
        },
        rest,
    )
}

/// `spawn N`.
#[inline(never)]
#[tactic(auto, unfolding(crate::specs::Operands::one_by))]
fn spawn_of(line: &[u8]) -> Option<Call>
    ensures { result ≡ one_by quota_of call.Spawn (tokens_of line.now) }
{
    let (quota, rest) = number_below(line, 4_294_967_296)?;
    let quota = quota as u32;
    alone(Call::Spawn { quota }, rest)
}

/// `fork N`.
#[inline(never)]
#[tactic(auto, unfolding(crate::specs::Operands::one_by))]
fn fork_of(line: &[u8]) -> Option<Call>
    ensures { result ≡ one_by quota_of call.Fork (tokens_of line.now) }
{
    let (quota, rest) = number_below(line, 4_294_967_296)?;
    let quota = quota as u32;
    alone(Call::Fork { quota }, rest)
}

/// A call of processes and their quotas. No space is in front.
#[inline(always)]
#[tactic(auto, unfolding(crate::specs::Lines::process_call_of), using(crate::proofs::OperandLemmas::process_calls))]
fn process_call_of(line: &[u8]) -> Option<Call>
    requires { is_trimmed line.now ≡ true }
    ensures { result ≡ first_in process_call_of (tokens_of line.now) }
{
    if let Some(operands) = after(line, b"spawn") {
        return spawn_of(operands);
    }
    if let Some(operands) = after(line, b"fork") {
        return fork_of(operands);
    }
    if let Some(operands) = after(line, b"exit") {
        return alone(Call::Exit, operands);
    }
    if let Some(operands) = after(line, b"quota") {
        return alone(Call::Quota, operands);
    }
    None
}

/// A call of offers, or one of processes. No space is in front.
#[inline(always)]
#[tactic(auto, unfolding(crate::specs::Lines::sharing_call_of), using(crate::proofs::OperandLemmas::sharing_calls))]
fn sharing_call_of(line: &[u8]) -> Option<Call>
    requires { is_trimmed line.now ≡ true }
    ensures { result ≡ first_in sharing_call_of (tokens_of line.now) }
{
    if let Some(operands) = after(line, b"offer") {
        return offer_of(operands);
    }
    if let Some(operands) = after(line, b"withdraw") {
        return withdraw_of(operands);
    }
    if let Some(operands) = after(line, b"accept") {
        return accept_of(operands);
    }
    process_call_of(line)
}

/// The call that the first token names, with the others as its operands. No space is in front.
#[inline(always)]
#[tactic(auto, unfolding(crate::specs::Lines::call_of), using(crate::proofs::OperandLemmas::calls))]
fn trimmed_call_of(line: &[u8]) -> Option<Call>
    requires { is_trimmed line.now ≡ true }
    ensures { result ≡ first_in call_of (tokens_of line.now) }
{
    if let Some(operands) = after(line, b"load") {
        return load_of(operands);
    }
    if let Some(operands) = after(line, b"store") {
        return store_of(operands);
    }
    if let Some(operands) = after(line, b"map") {
        return map_of(operands);
    }
    if let Some(operands) = after(line, b"unmap") {
        return unmap_of(operands);
    }
    if let Some(operands) = after(line, b"protect") {
        return protect_of(operands);
    }
    if let Some(operands) = after(line, b"info") {
        return info_of(operands);
    }
    sharing_call_of(line)
}

/// The call that the first token names, with the others as its operands.
#[inline(always)]
fn call_of(line: &[u8]) -> Option<Call>
    ensures { result ≡ first_in call_of (tokens_of line.now) }
{
    trimmed_call_of(trimmed(line))
}

/// The CPU and the process that a line begins with, and the bytes after them.
#[inline(never)]
#[tactic(auto, unfolding(crate::specs::Operands::caller_by))]
fn any_caller_of(line: &[u8]) -> Option<(u64, u64, &[u8])>
    ensures cpu { IfSome result (λ found. found.0 < 8) }
    ensures pid { IfSome result (λ found. found.1 < 64) }
    ensures read { option_map (λ found. (found.0, found.1, tokens_of found.2.now)) result
        ≡ caller_by (tokens_of line.now) }
{
    let (cpu, rest) = number_below(line, 8)?;
    let (pid, rest) = number_below(rest, 64)?;
    Some((cpu, pid, rest))
}

/// Returns the CPU and the process that a line begins with, and the bytes after them. Two one-digit numbers are
/// recognized by the first bytes.
#[inline(always)]
fn caller_of(line: &[u8]) -> Option<(u64, u64, &[u8])>
    ensures cpu { IfSome result (λ found. found.0 < 8) }
    ensures pid { IfSome result (λ found. found.1 < 64) }
    ensures read { option_map (λ found. (found.0, found.1, tokens_of found.2.now)) result
        ≡ caller_by (tokens_of line.now) }
{
    match line {
        [cpu, b' ', pid, b' ', rest @ ..] if digit_of(*cpu) < 8 && digit_of(*pid) < 10 => {
            Some((u64::from(digit_of(*cpu)), u64::from(digit_of(*pid)), rest))
        }
        _ => any_caller_of(line),
    }
}

/// Returns the event in a line: its CPU, its process, the name of the call and the operands.
#[inline(always)]
#[tactic(auto, unfolding(crate::specs::Operands::event_by))]
fn event_of(line: &[u8]) -> Option<Event>
    ensures { result ≡ event_by (tokens_of line.now) }
{
    let (cpu, pid, rest) = caller_of(line)?;
    let cpu = cpu as u8;
    let pid = Pid::new(pid as u8)?;
    let call = call_of(rest)?;
    Some(Event { cpu, pid, call })
}

/// Returns what a line says that has no event, and is no comment.
#[inline(never)]
fn without_event(bytes: &[u8]) -> Line
    ensures { result ≡ (if is_blank (tokens_of bytes.now) then line.Skipped else line.Malformed) }
{
    if is_blank(bytes) {
        Line::Skipped
    } else {
        Line::Malformed
    }
}

/// Returns what a line says, without its line feed. One of more than 100 bytes is malformed, whatever it has.
#[inline(always)]
#[tactic(auto, unfolding(crate::specs::Lines::line_of), using(crate::proofs::OperandLemmas::event_read, crate::proofs::OperandLemmas::some_token))]
pub fn line_of(bytes: &[u8]) -> Line
    ensures { result ≡ line_of bytes.now }
{
    if bytes.len() > LINE {
        return Line::Malformed;
    }
    if bytes.first() == Some(&b'#') {
        return Line::Skipped;
    }
    match event_of(bytes) {
        Some(event) => Line::Event(event),
        None => without_event(bytes),
    }
}
