//! How a case is written, and what its files are made of.

ghost use Rattle.std.specs.Prelude.{◌<◌, IfOk};

use crate::keys::{
    list_at, needed_text, number_at, numbers_at, one_of, only_keys, table_in, texts_at,
};
use crate::written::change_of;
use case_texts::{
    Case, CaseFault, Each, Ending, Expectation, Expected, Failing, KeyFault, NameFault, NamedText,
    Sources, Why, changed, example_of, find, name_fault, out_of,
};
use std::alloc::Global;
use toml::Table;

/// How many bytes a sink takes at a time where a case does not say it.
const PIECE: u32 = 4_096;

/// The keys of a case.
const CASE_KEYS: [&str; 17] = [
    "name",
    "words",
    "status",
    "out",
    "out_file",
    "out_part_of",
    "out_begins_with",
    "err",
    "err_part_of",
    "failed",
    "loads",
    "file",
    "fail_loads",
    "fail_puts",
    "fail_err_puts",
    "each",
    "piece",
];

/// The keys of a file.
const FILE_KEYS: [&str; 5] = ["name", "text", "example", "out_of", "changes"];

/// The keys of which one says where the text of a file comes from.
const SOURCE_KEYS: [&str; 3] = ["text", "example", "out_of"];

/// The keys of which one says what is expected of out.
const OUT_KEYS: [&str; 4] = ["out", "out_file", "out_part_of", "out_begins_with"];

/// The keys of which one says what is expected of err.
const ERR_KEYS: [&str; 2] = ["err", "err_part_of"];

/// The bytes that a key and its text say: the text, or those of the file or the case of that name.
fn bytes_said(alloc: Global, sources: &Sources<'_>, key: &str, text: &str) -> Result<Vec<u8>, Why> {
    match key {
        "example" | "out_file" => example_of(alloc, sources, text),
        "out_of" => out_of(alloc, sources, text),
        _ => Ok(Vec::from_slice(alloc, text.as_bytes())?),
    }
}

/// The text that a file has before its changes.
fn source_of(
    alloc: Global,
    sources: &Sources<'_>,
    table: &Table,
    name: &str,
) -> Result<Vec<u8>, Why> {
    match one_of(table, &SOURCE_KEYS)? {
        Some(key) => bytes_said(alloc, sources, key, needed_text(table, key)?),
        None => example_of(alloc, sources, name),
    }
}

/// The bytes of a file with all its changes.
fn changed_bytes(
    alloc: Global,
    sources: &Sources<'_>,
    table: &Table,
    name: &str,
) -> Result<Vec<u8>, Why> {
    let mut bytes = source_of(alloc, sources, table, name)?;
    for value in list_at(table, "changes")? {
        let change = change_of(alloc, table_in(value, "changes")?, name)?;
        bytes = changed(alloc, bytes, change)?;
    }
    Ok(bytes)
}

/// A file with all its changes.
fn file_of(alloc: Global, sources: &Sources<'_>, table: &Table) -> Result<NamedText, Why> {
    only_keys(alloc, table, &FILE_KEYS)?;
    let name = needed_text(table, "name")?;
    Ok(NamedText {
        bytes: changed_bytes(alloc, sources, table, name)?,
        name: String::from_str(alloc, name)?,
    })
}

/// The files of a case.
fn files_of(alloc: Global, sources: &Sources<'_>, table: &Table) -> Result<Vec<NamedText>, Why> {
    let mut files = Vec::new(alloc);
    for value in list_at(table, "file")? {
        files.push(file_of(alloc, sources, table_in(value, "file")?)?)?;
    }
    Ok(files)
}

/// How a run ends of which a case file says that word.
fn ending_of(word: &str) -> Option<Ending> {
    match word {
        "done" => Some(Ending::Done),
        "no" => Some(Ending::No),
        "words" => Some(Ending::Words),
        "refused" => Some(Ending::Refused),
        "read fault" => Some(Ending::ReadFault),
        "write fault" => Some(Ending::WriteFault),
        "memory" => Some(Ending::Memory),
        _ => None,
    }
}

/// What a case file means by that word of what fails in turn.
fn each_of(word: &str) -> Option<Each> {
    match word {
        "load" => Some(Each::Load),
        "put" => Some(Each::Put),
        "err put" => Some(Each::ErrPut),
        _ => None,
    }
}

/// What fails in turn.
fn turns_of(alloc: Global, table: &Table) -> Result<Vec<Each>, Why> {
    let mut turns = Vec::new(alloc);
    for value in list_at(table, "each")? {
        let Some(word) = value.as_str() else {
            return Err(Why::Key(KeyFault::NotTexts, "each"));
        };
        match each_of(word) {
            Some(each) => turns.push(each)?,
            None => return Err(name_fault(alloc, NameFault::NoTurn, word)),
        }
    }
    Ok(turns)
}

/// What is expected of out or err, of which these keys speak.
fn expectation_of(
    alloc: Global,
    sources: &Sources<'_>,
    table: &Table,
    keys: &[&'static str],
) -> Result<Expectation, Why> {
    let Some(key) = one_of(table, keys)? else {
        return Ok(Expectation::Whole(Vec::new(alloc)));
    };
    let bytes = bytes_said(alloc, sources, key, needed_text(table, key)?)?;
    Ok(match key {
        "out_part_of" | "err_part_of" => Expectation::PartOf(bytes),
        "out_begins_with" => Expectation::BeginsWith(bytes),
        _ => Expectation::Whole(bytes),
    })
}

/// How a run is expected to end.
fn needed_ending(alloc: Global, table: &Table) -> Result<Ending, Why> {
    let word = needed_text(table, "status")?;
    match ending_of(word) {
        Some(ending) => Ok(ending),
        None => Err(name_fault(alloc, NameFault::NoStatus, word)),
    }
}

/// The names of all loads, if the case says them.
fn loads_of(alloc: Global, table: &Table) -> Result<Option<Vec<String>>, Why> {
    if table.contains_key("loads") {
        Ok(Some(texts_at(alloc, table, "loads")?))
    } else {
        Ok(None)
    }
}

/// What is expected of a run.
fn expected_of(alloc: Global, sources: &Sources<'_>, table: &Table) -> Result<Expected, Why> {
    Ok(Expected {
        ending: needed_ending(alloc, table)?,
        out: expectation_of(alloc, sources, table, &OUT_KEYS)?,
        err: expectation_of(alloc, sources, table, &ERR_KEYS)?,
        failed: texts_at(alloc, table, "failed")?,
        loads: loads_of(alloc, table)?,
    })
}

/// The numbers of the calls that fail.
fn failing_of(alloc: Global, table: &Table) -> Result<Failing, Why> {
    Ok(Failing {
        loads: numbers_at(alloc, table, "fail_loads")?,
        puts: numbers_at(alloc, table, "fail_puts")?,
        err_puts: numbers_at(alloc, table, "fail_err_puts")?,
    })
}

/// How many bytes a put takes at most.
fn piece_of(table: &Table) -> Result<u32, Why>
    ensures { IfOk result (λ piece. 0 < piece) }
{
    match number_at(table, "piece")? {
        None => Ok(PIECE),
        Some(0) => Err(Why::Case(CaseFault::NoPiece)),
        Some(piece) => match u32::try_from(piece) {
            Ok(piece) => Ok(piece),
            Err(_) => Err(Why::Key(KeyFault::TooGreat, "piece")),
        },
    }
}

/// Whether it is known what comes of the runs in which calls fail in turn.
fn has_turns(each: &[Each], expected: &Expected) -> bool {
    let is_whole = matches!(
        (&expected.out, &expected.err),
        (Expectation::Whole(_), Expectation::Whole(_))
    );
    each.is_empty() || (is_whole && (expected.loads.is_some() || !each.contains(&Each::Load)))
}

/// The name of a case, which no case so far has.
fn new_name(alloc: Global, sources: &Sources<'_>, table: &Table) -> Result<String, Why> {
    let name = needed_text(table, "name")?;
    if find(sources.outs, name).is_some() {
        return Err(name_fault(alloc, NameFault::Twice, name));
    }
    Ok(String::from_str(alloc, name)?)
}

/// What fails in turn in a case of which that is expected.
fn known_turns(alloc: Global, table: &Table, expected: &Expected) -> Result<Vec<Each>, Why> {
    let each = turns_of(alloc, table)?;
    if has_turns(each.as_slice(), expected) {
        Ok(each)
    } else {
        Err(Why::Case(CaseFault::TurnsNeedMore))
    }
}

/// The case that is written in a table, with the texts of its files.
pub(crate) fn case_of(alloc: Global, sources: &Sources<'_>, table: &Table) -> Result<Case, Why> {
    only_keys(alloc, table, &CASE_KEYS)?;
    if !table.contains_key("words") {
        return Err(Why::Key(KeyFault::Absent, "words"));
    }
    let piece = piece_of(table)? as usize;
    let expected = expected_of(alloc, sources, table)?;
    Ok(Case {
        each: known_turns(alloc, table, &expected)?,
        name: new_name(alloc, sources, table)?,
        words: texts_at(alloc, table, "words")?,
        files: files_of(alloc, sources, table)?,
        failing: failing_of(alloc, table)?,
        piece,
        expected,
    })
}
