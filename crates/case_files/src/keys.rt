//! What stands at the keys of a table.

ghost use Rattle.std.specs.Prelude.{◌≡◌, Some, pos, option_map, option_and_then, IfOk, IfSome};
ghost use Rattle.toml.specs.Data.{as_str, as_integer, get_member};
ghost use Rattle.toml.specs.View.{view, table_view};
ghost use Rattle.case_files.specs.Keys.{IsRead};

use case_texts::{KeyFault, NameFault, Why, name_fault};
use std::alloc::Global;
use toml::{Table, Value};

/// Refuses a table with a key that is none of these.
pub(crate) fn only_keys(alloc: Global, table: &Table, keys: &[&str]) -> Result<(), Why> {
    for key in table.keys() {
        if !(&*keys).contains(&key.as_str()) {
            return Err(name_fault(alloc, NameFault::NoKey, key.as_str()));
        }
    }
    Ok(())
}

/// The one of these keys that stands in a table, if there is one. It refuses two of them.
pub(crate) fn one_of(table: &Table, keys: &[&'static str]) -> Result<Option<&'static str>, Why> {
    let mut found = None;
    for key in keys {
        if table.contains_key(*key) {
            if found.is_some() {
                return Err(Why::Key(KeyFault::Second, *key));
            }
            found = Some(*key);
        }
    }
    Ok(found)
}

/// The text at a key, if the key is there.
pub(crate) fn text_at<'a>(table: &'a Table, key: &'static str) -> Result<Option<&'a str>, Why>
    ensures { IfOk result (λ text. IsRead as_str key.now (table_view table.now) (option_map (λ t. t.now) text)) }
{
    match table.get(key) {
        Some(value) => match value.as_str() {
            Some(text) => Ok(Some(text)),
            None => Err(Why::Key(KeyFault::NotText, key)),
        },
        None => Ok(None),
    }
}

/// The text at a key that has to be there.
pub(crate) fn needed_text<'a>(table: &'a Table, key: &'static str) -> Result<&'a str, Why>
    ensures { IfOk result (λ text. option_and_then as_str (get_member key.now (table_view table.now)) ≡ Some text.now) }
{
    match text_at(table, key)? {
        Some(text) => Ok(text),
        None => Err(Why::Key(KeyFault::Absent, key)),
    }
}

/// The number that a value is, if it is one from 0 on.
fn number_of(value: &Value) -> Option<u64>
    ensures { IfSome result (λ number. as_integer (view value.now) ≡ Some (pos number)) }
{
    match value.as_integer() {
        Some(number) => u64::try_from(number).ok(),
        None => None,
    }
}

/// The number at a key, if the key is there.
pub(crate) fn number_at(table: &Table, key: &'static str) -> Result<Option<u64>, Why>
    ensures { IfOk result (λ number. IsRead as_integer key.now (table_view table.now) (option_map pos number)) }
{
    match table.get(key) {
        Some(value) => match number_of(value) {
            Some(number) => Ok(Some(number)),
            None => Err(Why::Key(KeyFault::NotNumber, key)),
        },
        None => Ok(None),
    }
}

/// The number at a key that has to be there.
pub(crate) fn needed_number(table: &Table, key: &'static str) -> Result<u64, Why>
    ensures { IfOk result (λ number. option_and_then as_integer (get_member key.now (table_view table.now)) ≡ Some (pos number)) }
{
    match number_at(table, key)? {
        Some(number) => Ok(number),
        None => Err(Why::Key(KeyFault::Absent, key)),
    }
}

/// The list at a key, which is empty if the key is not there.
pub(crate) fn list_at<'a>(table: &'a Table, key: &'static str) -> Result<&'a [Value], Why> {
    match table.get(key) {
        Some(Value::Array(values)) => Ok(values.as_slice()),
        Some(_) => Err(Why::Key(KeyFault::NotList, key)),
        None => Ok(&[]),
    }
}

/// The texts in the list at a key.
pub(crate) fn texts_at(
    alloc: Global,
    table: &Table,
    key: &'static str,
) -> Result<Vec<String>, Why> {
    let mut texts = Vec::new(alloc);
    for value in list_at(table, key)? {
        match value.as_str() {
            Some(text) => texts.push(String::from_str(alloc, text)?)?,
            None => return Err(Why::Key(KeyFault::NotTexts, key)),
        }
    }
    Ok(texts)
}

/// The numbers in the list at a key.
pub(crate) fn numbers_at(alloc: Global, table: &Table, key: &'static str) -> Result<Vec<u64>, Why> {
    let mut numbers = Vec::new(alloc);
    for value in list_at(table, key)? {
        match number_of(value) {
            Some(number) => numbers.push(number)?,
            None => return Err(Why::Key(KeyFault::NotNumbers, key)),
        }
    }
    Ok(numbers)
}

/// The table of a value that stands in the list at a key.
pub(crate) fn table_in<'a>(value: &'a Value, key: &'static str) -> Result<&'a Table, Why> {
    match value {
        Value::Table(table) => Ok(table),
        _ => Err(Why::Key(KeyFault::NotTables, key)),
    }
}
