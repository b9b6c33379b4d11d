ghost use Rattle.std.specs.Prelude.{◌≡◌, ℕ, ◌+◌, ◌<◌, ◌≤◌, ◌∷◌, ◌++◌, [], nat_eq, length, take, IfOk, OnOk, IsTrue, string_bytes, slice_set};
ghost use Rattle.std.specs.List.{starts_with};
ghost use Rattle.case_texts.specs.Changes.{begins_line, ends_line, is_line_at, IsOnlyLineAt, spliced, IsChanged};

use crate::fault::{NameFault, Why, name_fault};
use std::alloc::{AllocError, Global};

/// The byte that ends a line.
const LINE_END: u8 = b'\n';

/// What stands for the number of a copy.
const NUMBER: &str = "{n}";

/// A change of a text.
#[derive(Clone, Copy)]
pub enum Change<'a> {
    /// A line in place of another.
    Replace { line: &'a str, by: &'a str },
    /// A line after another.
    Insert { line: &'a str, after: &'a str },
    /// A line at the end.
    Append { line: &'a str },
    /// A line is left out.
    Remove { line: &'a str },
    /// The text up to that length.
    Cut { end: u64 },
    /// A text so many times at the end, in which `{n}` stands for the number of the copy, counted from 0.
    Repeat { text: &'a str, times: u64 },
    /// A byte at a place.
    SetByte { byte: u8, at: u64 },
}

/// Whether a line begins at that place of a text.
fn begins_line(text: &[u8], at: usize) -> bool
    requires { at ≤ length text.now }
    ensures { result ≡ begins_line text.now at }
{
    at == 0 || text[at - 1] == LINE_END
}

/// Whether a line ends at that place of a text.
fn ends_line(text: &[u8], at: usize) -> bool
    requires { at ≤ length text.now }
    ensures { result ≡ ends_line text.now at }
{
    at == text.len() || text[at] == LINE_END
}

/// Whether a line stands at that place of a text.
fn is_line_at(text: &[u8], line: &[u8], at: usize) -> bool
    requires { at ≤ length text.now }
    ensures value { result ≡ is_line_at text.now line.now at }
    ensures within { IsTrue result → at + length line.now ≤ length text.now }
{
    begins_line(text, at) && text[at..].starts_with(line) && ends_line(text, at + line.len())
}

/// The one place at which a line stands.
fn place_of(alloc: Global, text: &[u8], line: &str) -> Result<usize, Why>
    ensures { IfOk result (IsOnlyLineAt text.now line.now) }
{
    let mut found = None;
    for at in 0..text.len() {
        if is_line_at(text, line.as_bytes(), at) {
            if found.is_some() {
                return Err(name_fault(alloc, NameFault::LineTwice, line));
            }
            found = Some(at);
        }
    }
    match found {
        Some(at) => Ok(at),
        None => Err(name_fault(alloc, NameFault::LineAbsent, line)),
    }
}

/// The text with other bytes in place of those from one place up to another.
fn spliced(
    alloc: Global,
    text: &[u8],
    from: usize,
    to: usize,
    middle: &[u8],
) -> Result<Vec<u8>, AllocError>
    requires from { from ≤ length text.now }
    requires to { to ≤ length text.now }
    ensures { IfOk result (λ v. v.items ≡ spliced text.now from to middle.now) }
{
    let mut changed = Vec::new(alloc);
    changed.extend_from_slice(&text[..from])?;
    changed.extend_from_slice(middle)?;
    changed.extend_from_slice(&text[to..])?;
    Ok(changed)
}

/// The text with a line in place of another.
fn replaced(alloc: Global, text: &[u8], line: &str, by: &str) -> Result<Vec<u8>, Why>
    ensures { IfOk result (λ v. (at : ℕ) × IsOnlyLineAt text.now line.now at × (v.items ≡ spliced text.now at (at + length line.now) by.now)) }
{
    let at = place_of(alloc, text, line)?;
    Ok(spliced(alloc, text, at, at + line.len(), by.as_bytes())?)
}

/// The text with a line after another.
fn inserted(alloc: Global, text: &[u8], line: &str, after: &str) -> Result<Vec<u8>, Why>
    ensures { IfOk result (λ v. (at : ℕ) × IsOnlyLineAt text.now after.now at × (v.items ≡ spliced text.now (at + length after.now) (at + length after.now) (10 ∷ line.now))) }
{
    let at = place_of(alloc, text, after)? + after.len();
    let mut added = String::from_str(alloc, "\n")?;
    added.push_str(line)?;
    Ok(spliced(alloc, text, at, at, added.as_bytes())?)
}

/// The text without a line.
#[tactic(auto, using(std::proofs::lemmas::List::drop_min))]
fn removed(alloc: Global, text: &[u8], line: &str) -> Result<Vec<u8>, Why>
    ensures { IfOk result (λ v. (at : ℕ) × IsOnlyLineAt text.now line.now at × (v.items ≡ spliced text.now at (at + length line.now + 1) [])) }
{
    let at = place_of(alloc, text, line)?;
    let end = (at + line.len() + 1).min(text.len());
    Ok(spliced(alloc, text, at, end, b"")?)
}

/// A text with a number in place of each `{n}`.
fn numbered(alloc: Global, text: &str, number: u64) -> Result<String, AllocError> {
    let numeral = number.to_string(alloc)?;
    text.replace(alloc, NUMBER, numeral.as_str())
}

/// Adds a text at the end, so many times.
fn repeat(alloc: Global, bytes: &mut Vec<u8>, text: &str, times: u64) -> Result<(), AllocError>
    ensures { OnOk result (length bytes.old.items ≤ length bytes.new.items) }
{
    for number in 0..times {
        bytes.extend_from_slice(numbered(alloc, text, number)?.as_bytes())?;
    }
    Ok(())
}

/// Cuts a text to that length, which it has.
fn cut(bytes: &mut Vec<u8>, end: u64) -> Result<(), Why>
    ensures within { OnOk result (end ≤ length bytes.old.items) }
    ensures after { OnOk result (bytes.new.items ≡ take end bytes.old.items) }
{
    match usize::try_from(end) {
        Ok(length) if length <= bytes.len() => {
            bytes.truncate(length);
            Ok(())
        }
        _ => Err(Why::PastEnd(end)),
    }
}

/// Puts a byte at a place that is there.
fn set_byte(bytes: &mut Vec<u8>, byte: u8, at: u64) -> Result<(), Why>
    ensures within { OnOk result (at < length bytes.old.items) }
    ensures after { OnOk result (bytes.new.items ≡ slice_set bytes.old.items at byte) }
{
    match usize::try_from(at) {
        Ok(at) if at < bytes.len() => {
            bytes[at] = byte;
            Ok(())
        }
        _ => Err(Why::PastEnd(at)),
    }
}

/// The text with a change.
pub fn changed(alloc: Global, mut bytes: Vec<u8>, change: Change<'_>) -> Result<Vec<u8>, Why>
    ensures { IfOk result (λ v. IsChanged change.entry bytes.items v.items) }
{
    match change {
        Change::Replace { line, by } => {
            return replaced(alloc, bytes.as_slice(), line, by);
        }
        Change::Insert { line, after } => {
            return inserted(alloc, bytes.as_slice(), line, after);
        }
        Change::Remove { line } => return removed(alloc, bytes.as_slice(), line),
        Change::Append { line } => {
            bytes.extend_from_slice(line.as_bytes())?;
            bytes.push(LINE_END)?;
        }
        Change::Cut { end } => cut(&mut bytes, end)?,
        Change::Repeat { text, times } => repeat(alloc, &mut bytes, text, times)?,
        Change::SetByte { byte, at } => set_byte(&mut bytes, byte, at)?,
    }
    Ok(bytes)
}
