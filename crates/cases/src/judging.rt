ghost use Rattle.std.specs.Prelude.{IfOk};
ghost use Rattle.cases.specs.Verdicts.{IsJust};

use crate::running::{Turn, run_once};
use crate::turns::{difference, err_puts_in_turn, loads_in_turn, puts_in_turn};
use case_texts::{Case, Each, NamedText, Ran};
use std::alloc::Global;
use xc_base::Memory;

/// What came of a case.
#[derive(Drop)]
pub(crate) enum Verdict {
    /// All its runs are as expected. This is the first one.
    Passed(Ran),
    /// A run is not, and how.
    Differs(String),
}

/// Runs a case with its calls failing in turn.
fn in_turn(
    alloc: Global,
    examples: &[NamedText],
    case: &Case,
    each: Each,
) -> Result<Option<String>, Memory> {
    match (each, &case.expected.loads) {
        (Each::Put, _) => puts_in_turn(alloc, examples, case),
        (Each::ErrPut, _) => err_puts_in_turn(alloc, examples, case),
        (Each::Load, Some(loads)) => loads_in_turn(alloc, examples, case, loads.as_slice()),
        (Each::Load, None) => loads_in_turn(alloc, examples, case, &[]),
    }
}

/// Runs a case, and compares.
pub(crate) fn judge(alloc: Global, examples: &[NamedText], case: &Case) -> Result<Verdict, Memory>
    ensures { IfOk result (IsJust case.now.expected) }
{
    let ran = run_once(alloc, examples, case, Turn::None)?;
    if let Some(told) = difference(alloc, Turn::None, &case.expected, &ran)? {
        return Ok(Verdict::Differs(told));
    }
    for each in &case.each {
        if let Some(told) = in_turn(alloc, examples, case, *each)? {
            return Ok(Verdict::Differs(told));
        }
    }
    Ok(Verdict::Passed(ran))
}
