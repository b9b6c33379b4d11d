//! The check of the files that are generated for a number and a size.

ghost use Rattle.xc_course.specs.Works.{WorksAlways};
ghost use Rattle.xc_eval.specs.Checking.{GenTree};

use crate::checking::check;
use std::alloc::Global;
use xc_base::Sink;
use xc_gen::{GenFault, make};
use xc_lines::{Halt, Passed, refused_size};

/// Evaluates the generated formulas over the machine that the generated map merges, and writes the report. The files come from a
/// shelf of their own, so no load fails.
pub fn generate<W: Sink>(alloc: Global, out: &mut W, number: u32, size: u32) -> Result<Passed, Halt>
    ensures { WorksAlways (GenTree number size) (W.seen out.old) (W.seen out.new) result }
{
    match make(alloc, number, size) {
        Ok(mut made) => check(alloc, &mut made, out, "gen.map", "gen.ctl"),
        Err(GenFault::Size { found }) => Err(Halt::Refused(refused_size(alloc, found)?)),
        Err(GenFault::Memory) => Err(Halt::Memory),
    }
}
