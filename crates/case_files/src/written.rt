//! How a change is written.

ghost use Rattle.std.specs.Prelude.{◌≡◌, Some, pos, option_and_then, IfOk, IfSome};
ghost use Rattle.toml.specs.Data.{as_integer, get_member};
ghost use Rattle.toml.specs.View.{table_view};
ghost use Rattle.case_files.specs.Written.{IsWritten};

use crate::keys::{needed_number, needed_text, number_at, only_keys, text_at};
use case_texts::{Change, KeyFault, NameFault, Why, name_fault};
use std::alloc::Global;
use toml::Table;

/// The keys of changes.
const CHANGE_KEYS: [&str; 10] = [
    "replace", "with", "add", "after", "remove", "cut", "repeat", "times", "byte", "at",
];

/// The byte at a key.
fn needed_byte(table: &Table, key: &'static str) -> Result<u8, Why>
    ensures { IfOk result (λ byte. option_and_then as_integer (get_member key.now (table_view table.now)) ≡ Some (pos byte)) }
{
    match u8::try_from(needed_number(table, key)?) {
        Ok(byte) => Ok(byte),
        Err(_) => Err(Why::Key(KeyFault::TooGreat, key)),
    }
}

/// The change of a line, if it is one.
fn line_change(table: &Table) -> Result<Option<Change<'_>>, Why>
    ensures { IfOk result (λ found. IfSome found (λ change. IsWritten change (table_view table.now))) }
{
    if let Some(line) = text_at(table, "replace")? {
        let by = needed_text(table, "with")?;
        return Ok(Some(Change::Replace { line, by }));
    }
    if let Some(line) = text_at(table, "add")? {
        return match text_at(table, "after")? {
            Some(after) => Ok(Some(Change::Insert { line, after })),
            None => Ok(Some(Change::Append { line })),
        };
    }
    match text_at(table, "remove")? {
        Some(line) => Ok(Some(Change::Remove { line })),
        None => Ok(None),
    }
}

/// The change of bytes, if it is one.
fn byte_change(table: &Table) -> Result<Option<Change<'_>>, Why>
    ensures { IfOk result (λ found. IfSome found (λ change. IsWritten change (table_view table.now))) }
{
    if let Some(end) = number_at(table, "cut")? {
        return Ok(Some(Change::Cut { end }));
    }
    if let Some(text) = text_at(table, "repeat")? {
        let times = needed_number(table, "times")?;
        return Ok(Some(Change::Repeat { text, times }));
    }
    if !table.contains_key("byte") {
        return Ok(None);
    }
    let byte = needed_byte(table, "byte")?;
    let at = needed_number(table, "at")?;
    Ok(Some(Change::SetByte { byte, at }))
}

/// The change that is written in a table, if it is one.
fn written_change(table: &Table) -> Result<Option<Change<'_>>, Why>
    ensures { IfOk result (λ found. IfSome found (λ change. IsWritten change (table_view table.now))) }
{
    match line_change(table)? {
        Some(change) => Ok(Some(change)),
        None => byte_change(table),
    }
}

/// With how many keys a change is written.
fn count_keys(change: &Change<'_>) -> usize {
    match change {
        Change::Append { .. } | Change::Remove { .. } | Change::Cut { .. } => 1,
        _ => 2,
    }
}

/// The change of a file that is written in a table, which has no other keys.
pub(crate) fn change_of<'a>(alloc: Global, table: &'a Table, file: &str) -> Result<Change<'a>, Why>
    ensures { IfOk result (λ change. IsWritten change (table_view table.now)) }
{
    only_keys(alloc, table, &CHANGE_KEYS)?;
    match written_change(table)? {
        Some(change) if count_keys(&change) == table.len() => Ok(change),
        _ => Err(name_fault(alloc, NameFault::NoChange, file)),
    }
}
