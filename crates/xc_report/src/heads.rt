ghost use Rattle.std.specs.Prelude.{◌≡◌, ℕ, IfOk, sum, List as Items};
ghost use Rattle.xc_merge.specs.Merges.{parts_of};
ghost use Rattle.xc_machine.specs.Machines.{merge_of};
ghost use Rattle.xc_product.specs.Heights.{AreHeights};
ghost use Rattle.xc_report.specs.Reports.{head_text};

use crate::pieces::{push_number, push_start};
use std::alloc::Global;
use xc_alg::Algebra;
use xc_base::{Bytes, List, Memory};
use xc_machine::Machine;

/// The line of a machine: its name, and how many states, elements, steps of height and initial states it has.
///
/// In a marked report the line is a comment.
pub fn head(alloc: Global, machine: &Machine, marked: bool) -> Result<Bytes, Memory>
    ensures { IfOk result (λ text. (heights : Items ℕ) → AreHeights (parts_of (merge_of machine.now)) heights → text ≡ head_text marked (merge_of machine.now) (sum heights)) }
{
    let product = machine.product();
    let mut text = List::new(alloc);
    push_start(&mut text, marked, "map ")?;
    text.extend(machine.map().name().as_str().as_bytes())?;
    push_number(alloc, &mut text, " states ", u64::from(machine.states()))?;
    push_number(alloc, &mut text, " elements ", u64::from(product.size()))?;
    push_number(alloc, &mut text, " height ", u64::from(product.height()))?;
    push_number(
        alloc,
        &mut text,
        " initial ",
        machine.initials().len() as u64,
    )?;
    text.extend(b"\n")?;
    Ok(text)
}
