//! Further runs of a case, in which one call after another fails.

ghost use Rattle.std.specs.Prelude.{◌↔◌, IfOk, IsNone};
ghost use Rattle.case_texts.specs.Expectations.{IsAsExpected};

use crate::running::{Turn, run_once};
use crate::telling::told;
use case_texts::{Case, Ending, Expectation, Expected, NamedText, Ran, first_difference};
use std::alloc::{AllocError, Global};
use xc_base::Memory;

/// How many calls are tried in turn.
const MOST_CALLS: u64 = 100_000;

/// What is told where the last call still fails.
const NO_END: &str = "    each call that was tried fails the run\n";

/// What a run has that is not expected, as text.
pub(crate) fn difference(
    alloc: Global,
    turn: Turn,
    expected: &Expected,
    ran: &Ran,
) -> Result<Option<String>, AllocError>
    ensures { IfOk result (λ told. IsNone told ↔ IsAsExpected expected.now ran.now) }
{
    match first_difference(expected, ran) {
        Some(part) => Ok(Some(told(alloc, turn, part, expected, ran)?)),
        None => Ok(None),
    }
}

/// The text of an expectation.
fn text_of(expectation: &Expectation) -> &[u8] {
    match expectation {
        Expectation::Whole(text) | Expectation::PartOf(text) | Expectation::BeginsWith(text) => {
            text.as_slice()
        }
    }
}

/// A text as bytes.
fn bytes_of(alloc: Global, text: &str) -> Result<Vec<u8>, AllocError> {
    Vec::from_slice(alloc, text.as_bytes())
}

/// Copies of these names.
fn copies_of(alloc: Global, names: &[String]) -> Result<Vec<String>, AllocError> {
    let mut copies = Vec::new(alloc);
    for name in names {
        copies.push(name.clone()?)?;
    }
    Ok(copies)
}

/// What is expected where a put on out fails.
fn after_put(alloc: Global, expected: &Expected) -> Result<Expected, AllocError> {
    Ok(Expected {
        ending: Ending::WriteFault,
        out: Expectation::PartOf(Vec::from_slice(alloc, text_of(&expected.out))?),
        err: Expectation::Whole(bytes_of(alloc, "fault write\n")?),
        failed: Vec::new(alloc),
        loads: None,
    })
}

/// What is expected where a put on err fails: all but err as without the failure.
fn after_err_put(alloc: Global, expected: &Expected) -> Result<Expected, AllocError> {
    Ok(Expected {
        ending: expected.ending,
        out: Expectation::Whole(Vec::from_slice(alloc, text_of(&expected.out))?),
        err: Expectation::PartOf(Vec::from_slice(alloc, text_of(&expected.err))?),
        failed: copies_of(alloc, expected.failed.as_slice())?,
        loads: None,
    })
}

/// What is expected where the last of these loads fails.
fn after_load(alloc: Global, loads: &[String], name: &String) -> Result<Expected, AllocError> {
    let line = format!(in alloc; "fault read {name}\n")?;
    let mut failed = Vec::new(alloc);
    failed.push(name.clone()?)?;
    Ok(Expected {
        ending: Ending::ReadFault,
        out: Expectation::Whole(Vec::new(alloc)),
        err: Expectation::Whole(bytes_of(alloc, line.as_str())?),
        failed,
        loads: Some(copies_of(alloc, loads)?),
    })
}

/// Runs a case with each put on out failing, up to the first run that ends as without a failure.
pub(crate) fn puts_in_turn(
    alloc: Global,
    examples: &[NamedText],
    case: &Case,
) -> Result<Option<String>, Memory> {
    let expected = after_put(alloc, &case.expected)?;
    for call in 1..=MOST_CALLS {
        let turn = Turn::Put(call);
        let ran = run_once(alloc, examples, case, turn)?;
        if ran.ending == case.expected.ending {
            return Ok(difference(alloc, turn, &case.expected, &ran)?);
        }
        if let Some(told) = difference(alloc, turn, &expected, &ran)? {
            return Ok(Some(told));
        }
    }
    Ok(Some(String::from_str(alloc, NO_END)?))
}

/// Runs a case with each put on err failing, up to the first run whose err is whole.
pub(crate) fn err_puts_in_turn(
    alloc: Global,
    examples: &[NamedText],
    case: &Case,
) -> Result<Option<String>, Memory> {
    let expected = after_err_put(alloc, &case.expected)?;
    for call in 1..=MOST_CALLS {
        let turn = Turn::ErrPut(call);
        let ran = run_once(alloc, examples, case, turn)?;
        if first_difference(&case.expected, &ran).is_none() {
            return Ok(None);
        }
        if let Some(told) = difference(alloc, turn, &expected, &ran)? {
            return Ok(Some(told));
        }
    }
    Ok(Some(String::from_str(alloc, NO_END)?))
}

/// Runs a case with each of its loads failing, and with the one that comes after them.
pub(crate) fn loads_in_turn(
    alloc: Global,
    examples: &[NamedText],
    case: &Case,
    loads: &[String],
) -> Result<Option<String>, Memory> {
    let mut call = 1u64;
    for (index, name) in loads.iter().enumerate() {
        let turn = Turn::Load(call);
        let expected = after_load(alloc, &loads[..index + 1], name)?;
        let ran = run_once(alloc, examples, case, turn)?;
        if let Some(told) = difference(alloc, turn, &expected, &ran)? {
            return Ok(Some(told));
        }
        call = call.saturating_add(1);
    }
    let turn = Turn::Load(call);
    let ran = run_once(alloc, examples, case, turn)?;
    Ok(difference(alloc, turn, &case.expected, &ran)?)
}
