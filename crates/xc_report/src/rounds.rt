//! The lines of a formula's fixpoints.

ghost use Rattle.std.specs.Prelude.{◌≡◌, ◌<◌, ◌≤◌, ◌++◌, length, OnOk};
ghost use Rattle.std.specs.List.{flat_map, range_with_len};
ghost use Rattle.std.specs.Option.{option_map};
ghost use Rattle.xc_merge.specs.MergedFrames.{merged_frame};
ghost use Rattle.xc_machine.specs.Machines.{merge_of};
ghost use Rattle.xc_ctl.specs.Rounds.{IsTableFor};
ghost use Rattle.xc_report.specs.Reports.{kind_word, node_text};

use crate::pieces::{push_both, push_number, push_start};
use std::alloc::Global;
use xc_base::{Bytes, Memory};
use xc_ctl::{Kind, Rounds};
use xc_machine::Machine;

// The word of a kind of fixpoint.
fn word_of(kind: Kind) -> Option<&'static str>
    ensures { option_map (λ t. t.now) result ≡ kind_word kind }
{
    match kind {
        Kind::Const(_)
        | Kind::Atom(_)
        | Kind::Not(_)
        | Kind::And(_, _)
        | Kind::Or(_, _)
        | Kind::Ex(_) => None,
        Kind::Eu(_, _) => Some("EU"),
        Kind::Au(_, _) => Some("AU"),
        Kind::Eg(_) => Some("EG"),
    }
}

// Appends the rounds of a node that is a fixpoint.
fn push_node<T: Rounds>(
    alloc: Global,
    text: &mut Bytes,
    machine: &Machine,
    marked: bool,
    node: u16,
    nodes: &[Kind],
    table: &T,
) -> Result<(), Memory>
    requires node { node < length nodes.now }
    requires table { IsTableFor (merged_frame (merge_of machine.now)) nodes.now (T.table table.now) }
    ensures { OnOk result (text.new ≡ text.old ++ node_text marked nodes.now (T.table table.now) node) }
{
    if let Some(word) = word_of(nodes[usize::from(node)]) {
        push_start(text, marked, "rounds ")?;
        push_number(alloc, text, "", u64::from(node))?;
        push_both(text, " ", word)?;
        push_number(alloc, text, " ", u64::from(table.rounds(node)))?;
        text.extend(b"\n")?;
    }
    Ok(())
}

/// Appends the rounds of the fixpoints of a formula.
#[tactic(auto, using(std::proofs::lemmas::Grind::common_steps, crate::proofs::Rows::line_pushed))]
pub(crate) fn push_rounds<T: Rounds>(
    alloc: Global,
    text: &mut Bytes,
    machine: &Machine,
    marked: bool,
    nodes: &[Kind],
    table: &T,
) -> Result<(), Memory>
    requires few { length nodes.now ≤ 256 }
    requires table { IsTableFor (merged_frame (merge_of machine.now)) nodes.now (T.table table.now) }
    ensures { OnOk result (text.new ≡ text.old ++ flat_map (node_text marked nodes.now (T.table table.now)) (range_with_len 0 (length nodes.now))) }
{
    for node in 0..nodes.len() as u16 {
        push_node(alloc, text, machine, marked, node, nodes, table)?;
    }
    Ok(())
}
