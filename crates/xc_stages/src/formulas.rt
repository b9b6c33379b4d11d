//! Formula files.

ghost use Rattle.std.specs.Prelude.{IfOk, IfErr};
ghost use Rattle.xc_base.specs.Formats.{IsAccepted};
ghost use Rattle.xc_base.specs.Lines.{rows_in};
ghost use Rattle.xc_formula_text.specs.FormulaFiles.{formula_format, IsStop};
ghost use Rattle.xc_ctl.specs.Formulas.{nodes_in};
ghost use Rattle.xc_machine.specs.Machines.{merge_of};
ghost use Rattle.xc_report.specs.Reports.{signature_of};
ghost use Rattle.xc_course.specs.FileKinds.{Formulas as FormulasOver};
ghost use Rattle.xc_course.specs.Given.{AreGiven};
ghost use Rattle.xc_course.specs.Trees.{Open};
ghost use Rattle.xc_course.specs.Works.{GoesOn, Stops};
ghost use Rattle.xc_stages.specs.Loaded.{IsFaultRefusal, IsRead, IsRefusalHalt, IsUnread};

use crate::load::{FILE_LIMIT, cut, load};
use std::alloc::Global;
use xc_alg::Algebra;
use xc_base::{Lines, Shelf, Stop};
use xc_ctl::Formulas;
use xc_lines::{Halt, refused_file};
use xc_machine::Machine;
use xc_report::formulas_fit;

/// The formulas of a file that is cut into lines, or what stops the reading.
fn read_tables(alloc: Global, machine: &Machine, lines: &Lines) -> Result<Formulas, Stop>
    ensures read { IfOk result (λ fs. IsAccepted (formula_format (signature_of (merge_of machine.now))) (rows_in lines.now) (nodes_in fs)) }
    ensures given { IfOk result (λ fs. AreGiven (merge_of machine.now) (nodes_in fs)) }
    ensures stopped { IfErr result (IsStop (signature_of (merge_of machine.now)) (rows_in lines.now)) }
{
    formulas_fit(machine);
    let product = machine.product();
    xc_formula_text::read_formulas(
        alloc,
        lines,
        machine.map().props(),
        machine.parts(),
        product.bottom(),
        product.top(),
    )
}

/// The formulas of a file that is cut into lines.
fn read_formulas(
    alloc: Global,
    machine: &Machine,
    name: &str,
    lines: &Lines,
) -> Result<Formulas, Halt>
    ensures read { IfOk result (λ fs. IsAccepted (formula_format (signature_of (merge_of machine.now))) (rows_in lines.now) (nodes_in fs)) }
    ensures given { IfOk result (λ fs. AreGiven (merge_of machine.now) (nodes_in fs)) }
    ensures stopped { IfErr result (IsRefusalHalt (IsFaultRefusal (formula_format (signature_of (merge_of machine.now))) name.now (rows_in lines.now))) }
{
    match read_tables(alloc, machine, lines) {
        Ok(formulas) => Ok(formulas),
        Err(Stop::File(fault)) => Err(Halt::Refused(refused_file(alloc, name, &fault)?)),
        Err(Stop::Memory) => Err(Halt::Memory),
    }
}

/// The formulas in a file of these bytes.
#[tactic(auto, using(crate::proofs::Reading::read_found, crate::proofs::Reading::not_found, crate::proofs::Reading::not_cut))]
fn formulas_in(alloc: Global, machine: &Machine, name: &str, bytes: &[u8]) -> Result<Formulas, Halt>
    ensures read { IfOk result (λ fs. IsRead (IsAccepted (formula_format (signature_of (merge_of machine.now)))) FILE_LIMIT bytes.now (nodes_in fs)) }
    ensures given { IfOk result (λ fs. AreGiven (merge_of machine.now) (nodes_in fs)) }
    ensures stopped { IfErr result (IsUnread (IsFaultRefusal (formula_format (signature_of (merge_of machine.now))) name.now) FILE_LIMIT name.now bytes.now) }
{
    let lines = cut(alloc, name, bytes, FILE_LIMIT)?;
    read_formulas(alloc, machine, name, &lines)
}

/// Opens formulas over the propositions and the elements of a machine.
pub fn open_formulas<S: Shelf>(
    alloc: Global,
    shelf: &mut S,
    machine: &Machine,
    name: &str,
) -> Result<Formulas, Halt>
    ensures given { IfOk result (λ fs. AreGiven (merge_of machine.now) (nodes_in fs)) }
    ensures goes_on { IfOk result (λ fs. GoesOn (Open (FormulasOver (signature_of (merge_of machine.now))) name.now) (S.seen shelf.old) (S.seen shelf.new) (nodes_in fs)) }
    ensures stops { IfErr result (Stops (Open (FormulasOver (signature_of (merge_of machine.now))) name.now) (S.seen shelf.old) (S.seen shelf.new)) }
{
    let bytes = load(alloc, shelf, name, FILE_LIMIT)?;
    formulas_in(alloc, machine, name, &bytes)
}
