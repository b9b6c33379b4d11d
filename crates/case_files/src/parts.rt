use crate::keys::{list_at, only_keys, table_in};
use crate::making::case_of;
use case_texts::{Case, CaseFault, Fault, Sources, Why};
use std::alloc::{AllocError, Global};
use std::mem;
use toml::Table;
use toml::de::Error;

/// The line that begins a case.
const HEAD: &str = "[[case]]";

/// The lines of a file from one `[[case]]` up to the next, and the number of the first of them.
#[derive(Drop)]
pub struct Part {
    line: u64,
    text: String,
}

/// The parts of a case file: what stands before the first case, and then one for each case.
pub fn parts_of(alloc: Global, text: &str) -> Result<Vec<Part>, AllocError> {
    let mut parts = Vec::new(alloc);
    let mut part = Part {
        line: 1,
        text: String::new(alloc),
    };
    let mut line = 1u64;
    for row in text.split_inclusive('\n') {
        if row.starts_with(HEAD) {
            let text = String::new(alloc);
            parts.push(mem::replace(&mut part, Part { line, text }))?;
        }
        part.text.push_str(row)?;
        line = line.saturating_add(1);
    }
    parts.push(part)?;
    Ok(parts)
}

/// The number of line ends in a text.
fn line_ends(text: &[u8]) -> u64 {
    let mut count = 0u64;
    for byte in text {
        if *byte == b'\n' {
            count = count.saturating_add(1);
        }
    }
    count
}

/// On which line of the text an error stands, counted from 0.
fn line_within(text: &str, error: &Error) -> u64 {
    match error.span() {
        Some(span) if span.start <= text.len() => line_ends(&text.as_bytes()[..span.start]),
        _ => 0,
    }
}

/// What an error says, on one line.
fn said(alloc: Global, error: &Error) -> Result<String, AllocError> {
    let told = error.to_string(alloc)?;
    let mut line = String::new(alloc);
    for row in told.as_str().lines() {
        if !row.starts_with("TOML parse error") {
            if !line.is_empty() {
                line.push_str(" ")?;
            }
            line.push_str(row)?;
        }
    }
    Ok(line)
}

/// The case that is written in the table of a part, if there is one.
fn case_in(alloc: Global, sources: &Sources<'_>, table: &Table) -> Result<Option<Case>, Why> {
    only_keys(alloc, table, &["case"])?;
    match list_at(table, "case")? {
        [] => Ok(None),
        [value] => Ok(Some(case_of(alloc, sources, table_in(value, "case")?)?)),
        _ => Err(Why::Case(CaseFault::Second)),
    }
}

impl Part {
    /// The case that is written in this part, if there is one.
    pub fn read(
        &self,
        alloc: Global,
        file: &str,
        sources: &Sources<'_>,
    ) -> Result<Option<Case>, Fault> {
        match toml::table_from_str(alloc, self.text.as_str()) {
            Ok(table) => match case_in(alloc, sources, &table) {
                Ok(case) => Ok(case),
                Err(why) => Err(fault(alloc, file, self.line, why)?),
            },
            Err(error) if error.is_memory() => Err(Fault::OutOfMemory),
            Err(error) => {
                let line = line_within(self.text.as_str(), &error).saturating_add(self.line);
                let why = Why::Format(said(alloc, &error)?);
                Err(fault(alloc, file, line, why)?)
            }
        }
    }
}

/// A fault of a file, on that line.
fn fault(alloc: Global, file: &str, line: u64, why: Why) -> Result<Fault, AllocError> {
    Ok(match why {
        Why::OutOfMemory => Fault::OutOfMemory,
        why => Fault::Malformed {
            file: String::from_str(alloc, file)?,
            line,
            why,
        },
    })
}
