//! What is told of a run that is not as expected.

use crate::running::Turn;
use case_texts::{Difference, Ending, Expectation, Expected, Ran};
use std::alloc::{AllocError, Global};
use std::fmt;
use std::fmt::Write;

impl fmt::Display for Turn {
    fn fmt<W: fmt::Write>(&self, f: &mut fmt::Formatter<W>) -> fmt::Result {
        match self {
            Turn::None => f.write_str(""),
            Turn::Load(call) => write!(f, "with load {call} failing, "),
            Turn::Put(call) => write!(f, "with put {call} on out failing, "),
            Turn::ErrPut(call) => write!(f, "with put {call} on err failing, "),
        }
    }
}

/// What a difference is one of.
fn place_word(difference: Difference) -> &'static str {
    match difference {
        Difference::Status => "the status",
        Difference::Out => "out",
        Difference::Err => "err",
        Difference::Failed => "the list of failed loads",
        Difference::Loads => "the list of loads",
    }
}

/// The word of a status in a case file.
fn word_of(ending: Ending) -> &'static str {
    match ending {
        Ending::Done => "done",
        Ending::No => "no",
        Ending::Words => "words",
        Ending::Refused => "refused",
        Ending::ReadFault => "read fault",
        Ending::WriteFault => "write fault",
        Ending::Memory => "memory",
    }
}

/// The place of the first byte in which two texts differ.
fn place_of_difference(expected: &[u8], got: &[u8]) -> usize {
    match expected.iter().zip(got).position(|(a, b)| a != b) {
        Some(place) => place,
        None => expected.len().min(got.len()),
    }
}

/// Adds how a text differs from what is expected.
fn tell_text(
    alloc: Global,
    told: &mut String,
    expectation: &Expectation,
    got: &[u8],
) -> Result<(), AllocError> {
    let (text, how) = match expectation {
        Expectation::Whole(text) => (text, ""),
        Expectation::PartOf(text) => (text, "a proper prefix of "),
        Expectation::BeginsWith(text) => (text, "a text that begins with "),
    };
    let place = place_of_difference(text.as_slice(), got);
    let wanted = String::from_utf8_lossy(alloc, text.as_slice())?;
    let found = String::from_utf8_lossy(alloc, got)?;
    writeln!(told, "    expected: {how}{wanted:?}")?;
    writeln!(told, "    got:      {found:?}")?;
    writeln!(told, "    the first byte that differs is byte {place}")
}

/// Adds names that are expected, and those of the run.
fn tell_names(
    told: &mut String,
    expected: &Vec<String>,
    got: &Vec<String>,
) -> Result<(), AllocError> {
    writeln!(told, "    expected: {expected:?}")?;
    writeln!(told, "    got:      {got:?}")
}

/// How a run differs from what is expected of it.
pub(crate) fn told(
    alloc: Global,
    turn: Turn,
    difference: Difference,
    expected: &Expected,
    ran: &Ran,
) -> Result<String, AllocError> {
    let mut told = String::new(alloc);
    let place = place_word(difference);
    writeln!(told, "  {turn}{place} is not as expected")?;
    let (wanted, found) = (word_of(expected.ending), word_of(ran.ending));
    writeln!(told, "    status: expected {wanted}, got {found}")?;
    match difference {
        Difference::Out => tell_text(alloc, &mut told, &expected.out, ran.out.as_slice())?,
        Difference::Status | Difference::Err => {
            tell_text(alloc, &mut told, &expected.err, ran.err.as_slice())?;
        }
        Difference::Failed => tell_names(&mut told, &expected.failed, &ran.failed)?,
        Difference::Loads => {
            let names = expected.loads.as_ref().unwrap_or(&expected.failed);
            tell_names(&mut told, names, &ran.loads)?;
        }
    }
    Ok(told)
}
