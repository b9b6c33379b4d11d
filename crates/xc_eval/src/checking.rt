//! The check of formulas over a merged machine.

ghost use Rattle.xc_course.specs.Works.{Works};
ghost use Rattle.xc_eval.specs.Checking.{CheckTree};

use crate::report::report;
use std::alloc::Global;
use xc_base::{Shelf, Sink};
use xc_lines::{Halt, Passed};
use xc_stages::{merge, open_formulas, open_map, open_viewpoints, within};

/// How many states may be evaluated.
const STATE_LIMIT: u32 = 4_096;

/// Evaluates the formulas of a file over the machine that the map in another merges, and writes the report.
pub fn check<S: Shelf, W: Sink>(
    alloc: Global,
    shelf: &mut S,
    out: &mut W,
    sigmap: &str,
    formulas: &str,
) -> Result<Passed, Halt>
    ensures { Works (CheckTree sigmap.now formulas.now) (S.seen shelf.old) (S.seen shelf.new) (W.seen out.old) (W.seen out.new) result }
{
    let sigmap = open_map(alloc, shelf, sigmap)?;
    let views = open_viewpoints(alloc, shelf, &sigmap)?;
    let machine = merge(alloc, sigmap, views)?;
    let formulas = open_formulas(alloc, shelf, &machine, formulas)?;
    within(alloc, STATE_LIMIT, &machine)?;
    report(alloc, out, &machine, &formulas, false)
}
