//! The report on formulas over a machine, written item by item.

ghost use Rattle.std.specs.Prelude.{◌≡◌, ◌≤◌, true, length, IfOk, [], ◌∷◌};
ghost use Rattle.xc_alg.specs.Products.{product};
ghost use Rattle.xc_merge.specs.Merges.{parts_of};
ghost use Rattle.xc_merge.specs.Projections.{states_of};
ghost use Rattle.xc_machine.specs.Machines.{merge_of};
ghost use Rattle.xc_ctl.specs.Tables.{is_table_in};
ghost use Rattle.xc_ctl.specs.Formulas.{nodes_in};
ghost use Rattle.xc_lines.specs.declared.status.Status.TheVariants.{Done};
ghost use Rattle.xc_course.specs.Given.{AreGiven};
ghost use Rattle.xc_course.specs.Items.{Head, Block, IsHead, IsBlock};
ghost use Rattle.xc_course.specs.Trees.{Serve};
ghost use Rattle.xc_course.specs.Works.{WorksAlways};
ghost use Rattle.xc_write.specs.Writing.{WritesOn};
ghost use Rattle.xc_eval.specs.Checking.{state_limit, blocks_of, report_items};

use std::alloc::Global;
use xc_base::{Bytes, Memory as NoMemory, Sink};
use xc_ctl::{Formula, Formulas};
use xc_lines::{Halt, Passed};
use xc_machine::Machine;
use xc_plain::Engine;
use xc_report::{block, head};
use xc_write::put_text;

/// The engine of a machine, which asks for its transitions once for all formulas.
#[tactic(auto, unfolding(xc_merge::specs::MergedFrames::merged_frame))]
fn engine_of<'a>(alloc: Global, machine: &'a Machine) -> Result<Engine<'a, Machine>, NoMemory>
    requires { states_of (merge_of machine.now).plan ≤ state_limit }
    ensures { IfOk result (λ engine. engine.model.now ≡ machine.now) }
{
    Engine::of(alloc, machine)
}

/// The first line of a report.
fn head_of(alloc: Global, machine: &Machine, marked: bool) -> Result<Bytes, NoMemory>
    ensures { IfOk result (IsHead marked (merge_of machine.now)) }
{
    machine.is_framed();
    head(alloc, machine, marked)
}

/// Writes the first line of a report.
fn write_head<W: Sink>(
    alloc: Global,
    out: &mut W,
    machine: &Machine,
    marked: bool,
) -> Result<(), Halt>
    ensures { WritesOn (Head marked (merge_of machine.now) ∷ []) (W.seen out.old) (W.seen out.new) result }
{
    let line = head_of(alloc, machine, marked)?;
    put_text(out, line.as_slice())
}

/// The block of a formula, which is evaluated for it.
#[tactic(auto, unfolding(xc_merge::specs::MergedFrames::merged_frame))]
fn block_of(
    alloc: Global,
    engine: &Engine<Machine>,
    number: u32,
    formula: &Formula,
    marked: bool,
) -> Result<Bytes, NoMemory>
    requires { let m = merge_of engine.now.model.now in is_table_in (product (parts_of m)).size (length m.plan.props) formula.now.nodes ≡ true }
    ensures { IfOk result (IsBlock marked (merge_of engine.now.model.now) number formula.now.nodes) }
{
    let table = engine.solve(alloc, formula)?;
    block(alloc, engine.model, formula, number, &table, None, marked)
}

/// Evaluates a formula, and writes what is told of it.
fn write_formula<W: Sink>(
    alloc: Global,
    out: &mut W,
    engine: &Engine<Machine>,
    number: u32,
    formula: &Formula,
    marked: bool,
) -> Result<(), Halt>
    requires { let m = merge_of engine.now.model.now in is_table_in (product (parts_of m)).size (length m.plan.props) formula.now.nodes ≡ true }
    ensures { WritesOn (Block marked (merge_of engine.now.model.now) number formula.now.nodes ∷ []) (W.seen out.old) (W.seen out.new) result }
{
    let text = block_of(alloc, engine, number, formula, marked)?;
    put_text(out, text.as_slice())
}

/// Evaluates formulas one after another, and writes what is told of each before the next is looked at.
#[tactic(auto, using(crate::proofs::Reporting::no_block, crate::proofs::Reporting::all_blocks))]
fn write_formulas<W: Sink>(
    alloc: Global,
    out: &mut W,
    engine: &Engine<Machine>,
    formulas: &Formulas,
    marked: bool,
) -> Result<(), Halt>
    requires { AreGiven (merge_of engine.now.model.now) (nodes_in formulas.now) }
    ensures { WritesOn (blocks_of marked (merge_of engine.now.model.now) 1 (nodes_in formulas.now)) (W.seen out.old) (W.seen out.new) result }
{
    for (i, formula) in formulas.items.as_slice().iter().enumerate() {
        write_formula(alloc, out, engine, i as u32 + 1, formula, marked)?;
    }
    Ok(())
}

/// Writes the first line, and then the blocks of the formulas.
fn write_report<W: Sink>(
    alloc: Global,
    out: &mut W,
    machine: &Machine,
    formulas: &Formulas,
    marked: bool,
) -> Result<(), Halt>
    requires few { states_of (merge_of machine.now).plan ≤ state_limit }
    requires given { AreGiven (merge_of machine.now) (nodes_in formulas.now) }
    ensures { WritesOn (report_items marked (merge_of machine.now) (nodes_in formulas.now)) (W.seen out.old) (W.seen out.new) result }
{
    let engine = engine_of(alloc, machine)?;
    write_head(alloc, out, machine, marked)?;
    write_formulas(alloc, out, &engine, formulas, marked)
}

/// Reports on formulas over a machine. Each line of a marked report is a comment.
pub(crate) fn report<W: Sink>(
    alloc: Global,
    out: &mut W,
    machine: &Machine,
    formulas: &Formulas,
    marked: bool,
) -> Result<Passed, Halt>
    requires few { states_of (merge_of machine.now).plan ≤ state_limit }
    requires given { AreGiven (merge_of machine.now) (nodes_in formulas.now) }
    ensures { WorksAlways (Serve Done (report_items marked (merge_of machine.now) (nodes_in formulas.now))) (W.seen out.old) (W.seen out.new) result }
{
    write_report(alloc, out, machine, formulas, marked)?;
    Ok(Passed::Done)
}
