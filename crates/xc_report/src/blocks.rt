ghost use Rattle.std.specs.Prelude.{◌≡◌, true, ◌++◌, length, IfOk, OnOk};
ghost use Rattle.xc_alg.specs.Products.{product};
ghost use Rattle.xc_merge.specs.Merges.{parts_of};
ghost use Rattle.xc_merge.specs.MergedFrames.{merged_frame};
ghost use Rattle.xc_machine.specs.Machines.{merge_of};
ghost use Rattle.xc_ctl.specs.Tables.{is_table_in};
ghost use Rattle.xc_ctl.specs.Rounds.{IsTableFor};
ghost use Rattle.xc_report.specs.Reports.{block_text, formula_text, size_text};

use crate::fit::formulas_fit;
use crate::pieces::{push_number, push_start};
use crate::rounds::push_rounds;
use crate::shares::push_shares;
use crate::told::Told;
use crate::values::push_values;
use std::alloc::Global;
use xc_alg::Algebra;
use xc_base::{Bytes, List, Memory};
use xc_ctl::{Formula, Rounds};
use xc_formula_text::print;
use xc_machine::Machine;

// Appends a formula with its number, written out.
fn push_formula(
    alloc: Global,
    text: &mut Bytes,
    machine: &Machine,
    marked: bool,
    number: u32,
    formula: &Formula,
) -> Result<(), Memory>
    requires { is_table_in (product (parts_of (merge_of machine.now))).size (length (merge_of machine.now).plan.props) formula.now.nodes ≡ true }
    ensures { OnOk result (text.new ≡ text.old ++ formula_text marked (merge_of machine.now) number formula.now.nodes) }
{
    formulas_fit(machine);
    let props = machine.map().props();
    let parts = machine.parts();
    let product = machine.product();
    let written = print(
        alloc,
        formula,
        props,
        parts,
        product.bottom(),
        product.top(),
    )?;
    push_start(text, marked, "formula ")?;
    push_number(alloc, text, "", u64::from(number))?;
    text.extend(b" ")?;
    text.extend(written.as_slice())?;
    text.extend(b"\n")
}

// Appends the size of a diagram, where there is one.
fn push_size(alloc: Global, text: &mut Bytes, marked: bool, size: Option<u64>) -> Result<(), Memory>
    ensures { OnOk result (text.new ≡ text.old ++ size_text marked size) }
{
    if let Some(size) = size {
        push_start(text, marked, "diagram ")?;
        push_number(alloc, text, "", size)?;
        text.extend(b"\n")?;
    }
    Ok(())
}

/// What a table tells of a formula: its number and its text, the rounds of its fixpoints, its value at each initial state, and
/// at how many of them each viewpoint gives which element. A size of its diagram follows where there is one.
///
/// In a marked report each line is a comment.
pub fn block<T: Rounds>(
    alloc: Global,
    machine: &Machine,
    formula: &Formula,
    number: u32,
    table: &T,
    size: Option<u64>,
    marked: bool,
) -> Result<Bytes, Memory>
    requires { IsTableFor (merged_frame (merge_of machine.now)) formula.now.nodes (T.table table.now) }
    ensures { IfOk result (λ text. text ≡ block_text marked (merge_of machine.now) number formula.now.nodes (T.table table.now) size) }
{
    let nodes = formula.nodes().as_slice();
    let told = Told {
        machine,
        nodes,
        node: (nodes.len() - 1) as u16,
        table,
    };
    let mut text = List::new(alloc);
    push_formula(alloc, &mut text, machine, marked, number, formula)?;
    push_rounds(alloc, &mut text, machine, marked, nodes, table)?;
    push_values(alloc, &mut text, marked, &told)?;
    push_shares(alloc, &mut text, marked, &told)?;
    push_size(alloc, &mut text, marked, size)?;
    Ok(text)
}
