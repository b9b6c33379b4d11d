//! The rows of one node, by those of its children.

ghost use Rattle.std.specs.Prelude.{◌≡◌, ◌<◌, ◌≤◌, ◌∷◌, [], true, nat_lt, length, IfOk, slice_index};
ghost use Rattle.xc_alg.specs.Products.{product};
ghost use Rattle.xc_fixpoint.specs.Functions.{Agree};
ghost use Rattle.xc_ctl.specs.Frames.{some_next};
ghost use Rattle.xc_ctl.specs.Tables.{first_child, second_child, has_children_below, is_kind_in};
ghost use Rattle.xc_plain.specs.Successors.{IsRow, AreRowsOf};
ghost use Rattle.xc_plain.specs.Told.{step_by, goes_up};
ghost use Rattle.xc_plain.specs.Settled.{AreRounds};
ghost use Rattle.xc_plain.specs.Nodes.{HaveRows, AreSafeNodes, TellsNode, rows_at, last_row, function_at};

use crate::form::Form;
use crate::next::next_row;
use crate::row::Row;
use crate::rows::{filled, joins, meets, negations};
use crate::settle::rounds_of;
use std::alloc::Global;
use xc_base::{List, Memory};
use xc_ctl::{Framed, Kind};

/// The function of a node: the last of its rows.
#[tactic(auto, using(crate::proofs::Telling::node_there))]
fn function_of(table: &[List<List<u16>>], node: u16) -> &[u16]
    requires node { nat_lt node (length table.now) ≡ true }
    requires some { HaveRows table.now }
    ensures { result.now ≡ last_row (rows_at table.now node) }
{
    let rows = &table[usize::from(node)];
    rows.get(rows.len() - 1).as_slice()
}

/// A row alone.
fn alone(alloc: Global, row: List<u16>) -> Result<List<List<u16>>, Memory>
    ensures { IfOk result (λ rows. rows ≡ row ∷ []) }
{
    let mut rows = List::new(alloc);
    rows.push(row)?;
    Ok(rows)
}

/// A constant at each state.
fn constant_row<M: Framed>(alloc: Global, model: &M, code: u16) -> Result<List<u16>, Memory>
    requires { code < (product (M.frame model.now).parts).size }
    ensures range { IfOk result (λ row. IsRow (product (M.frame model.now).parts).size (M.frame model.now).states row) }
    ensures value { IfOk result (λ row. Agree (M.frame model.now).states (slice_index row) (λ s. code)) }
{
    let row = filled(alloc, model.product(), code, model.states() as usize)?;
    Ok(row)
}

/// A proposition at each state.
fn atom_row<M: Framed>(alloc: Global, model: &M, prop: u16) -> Result<List<u16>, Memory>
    requires { prop < (M.frame model.now).props }
    ensures range { IfOk result (λ row. IsRow (product (M.frame model.now).parts).size (M.frame model.now).states row) }
    ensures value { IfOk result (λ row. Agree (M.frame model.now).states (slice_index row) ((M.frame model.now).prop prop)) }
{
    let mut row = List::new(alloc);
    for state in 0..model.states() {
        row.push(model.atom(prop, state))?;
    }
    Ok(row)
}

/// The negations of a function.
#[tactic(auto, using(crate::proofs::Telling::row_in_parts))]
fn negation_row<M: Framed>(alloc: Global, model: &M, codes: &[u16]) -> Result<List<u16>, Memory>
    requires { IsRow (product (M.frame model.now).parts).size (M.frame model.now).states codes.now }
    ensures range { IfOk result (λ row. IsRow (product (M.frame model.now).parts).size (M.frame model.now).states row) }
    ensures value { IfOk result (λ row. Agree (M.frame model.now).states (slice_index row) (λ s. (product (M.frame model.now).parts).negation (slice_index codes.now s))) }
{
    let row = negations(alloc, model.product(), codes)?;
    Ok(row)
}

/// The meets of two functions.
#[tactic(auto, using(crate::proofs::Telling::row_in_parts))]
fn meet_row<M: Framed>(
    alloc: Global,
    model: &M,
    left: &[u16],
    right: &[u16],
) -> Result<List<u16>, Memory>
    requires left { IsRow (product (M.frame model.now).parts).size (M.frame model.now).states left.now }
    requires right { IsRow (product (M.frame model.now).parts).size (M.frame model.now).states right.now }
    ensures range { IfOk result (λ row. IsRow (product (M.frame model.now).parts).size (M.frame model.now).states row) }
    ensures value { IfOk result (λ row. Agree (M.frame model.now).states (slice_index row) (λ s. (product (M.frame model.now).parts).meet (slice_index left.now s) (slice_index right.now s))) }
{
    let row = meets(alloc, model.product(), left, right)?;
    Ok(row)
}

/// The joins of two functions.
#[tactic(auto, using(crate::proofs::Telling::row_in_parts))]
fn join_row<M: Framed>(
    alloc: Global,
    model: &M,
    left: &[u16],
    right: &[u16],
) -> Result<List<u16>, Memory>
    requires left { IsRow (product (M.frame model.now).parts).size (M.frame model.now).states left.now }
    requires right { IsRow (product (M.frame model.now).parts).size (M.frame model.now).states right.now }
    ensures range { IfOk result (λ row. IsRow (product (M.frame model.now).parts).size (M.frame model.now).states row) }
    ensures value { IfOk result (λ row. Agree (M.frame model.now).states (slice_index row) (λ s. (product (M.frame model.now).parts).join (slice_index left.now s) (slice_index right.now s))) }
{
    let row = joins(alloc, model.product(), left, right)?;
    Ok(row)
}

/// What holds at some next state, of a function.
#[tactic(auto, using(crate::proofs::Telling::row_in_parts, crate::proofs::Telling::safe_in_parts))]
fn some_next_row<M: Framed>(
    alloc: Global,
    model: &M,
    rows: &[Row],
    codes: &[u16],
) -> Result<List<u16>, Memory>
    requires rows { AreRowsOf (M.frame model.now) rows.now }
    requires codes { IsRow (product (M.frame model.now).parts).size (M.frame model.now).states codes.now }
    ensures range { IfOk result (λ row. IsRow (product (M.frame model.now).parts).size (M.frame model.now).states row) }
    ensures value { IfOk result (λ row. Agree (M.frame model.now).states (slice_index row) (some_next (M.frame model.now) (slice_index codes.now))) }
{
    let row = next_row(alloc, model.product(), rows, codes)?;
    Ok(row)
}

/// The rounds of a fixpoint, by the functions of its children.
#[tactic(auto, using(crate::proofs::Telling::row_in_parts, crate::proofs::Telling::safe_in_parts))]
fn fixpoint_rows<M: Framed>(
    alloc: Global,
    model: &M,
    rows: &[Row],
    form: Form,
    left: &[u16],
    right: &[u16],
) -> Result<List<List<u16>>, Memory>
    requires few { (M.frame model.now).states ≤ 4096 }
    requires rows { AreRowsOf (M.frame model.now) rows.now }
    requires left { IsRow (product (M.frame model.now).parts).size (M.frame model.now).states left.now }
    requires right { IsRow (product (M.frame model.now).parts).size (M.frame model.now).states right.now }
    ensures few { IfOk result (λ iterates. length iterates ≤ 4294967296) }
    ensures rounds { IfOk result (λ iterates. let frame = M.frame model.now in AreRounds (product frame.parts) (goes_up form) frame.states (step_by (product frame.parts) rows.now form (slice_index left.now) (slice_index right.now)) iterates) }
{
    let iterates = rounds_of(alloc, model.product(), rows, form, left, right)?;
    Ok(iterates)
}

/// The rows of a node: its function, or the rounds in which it is reached.
#[tactic(auto, using(crate::proofs::Telling::function_row))]
pub(crate) fn node_rows<M: Framed>(
    alloc: Global,
    model: &M,
    rows: &[Row],
    table: &[List<List<u16>>],
    kind: Kind,
) -> Result<List<List<u16>>, Memory>
    requires few { (M.frame model.now).states ≤ 4096 }
    requires rows { AreRowsOf (M.frame model.now) rows.now }
    requires some { HaveRows table.now }
    requires table { AreSafeNodes (product (M.frame model.now).parts).size (M.frame model.now).states table.now }
    requires children { has_children_below (length table.now) kind ≡ true }
    requires kind { is_kind_in (product (M.frame model.now).parts).size (M.frame model.now).props kind ≡ true }
    ensures { IfOk result (λ new. TellsNode (M.frame model.now) kind (function_at table.now (first_child kind)) (function_at table.now (second_child kind)) new) }
{
    match kind {
        Kind::Const(code) => alone(alloc, constant_row(alloc, model, code)?),
        Kind::Atom(prop) => alone(alloc, atom_row(alloc, model, prop)?),
        Kind::Not(child) => {
            let codes = function_of(table, child);
            alone(alloc, negation_row(alloc, model, codes)?)
        }
        Kind::And(left, right) => {
            let (left, right) = (function_of(table, left), function_of(table, right));
            alone(alloc, meet_row(alloc, model, left, right)?)
        }
        Kind::Or(left, right) => {
            let (left, right) = (function_of(table, left), function_of(table, right));
            alone(alloc, join_row(alloc, model, left, right)?)
        }
        Kind::Ex(child) => {
            let codes = function_of(table, child);
            alone(alloc, some_next_row(alloc, model, rows, codes)?)
        }
        Kind::Eu(left, right) => {
            let (left, right) = (function_of(table, left), function_of(table, right));
            let iterates = fixpoint_rows(alloc, model, rows, Form::SomeUntil, left, right)?;
            Ok(iterates)
        }
        Kind::Au(left, right) => {
            let (left, right) = (function_of(table, left), function_of(table, right));
            let iterates = fixpoint_rows(alloc, model, rows, Form::EachUntil, left, right)?;
            Ok(iterates)
        }
        Kind::Eg(child) => {
            let codes = function_of(table, child);
            let iterates = fixpoint_rows(alloc, model, rows, Form::Always, codes, codes)?;
            Ok(iterates)
        }
    }
}
