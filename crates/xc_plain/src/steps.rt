//! The transitions of a machine, asked for once.

ghost use Rattle.std.specs.Prelude.{◌≡◌, ◌≢◌, ◌<◌, ◌≤◌, ◌++◌, ◌∷◌, [], ℕ, length, IfOk, OnOk, slice_index};
ghost use Rattle.xc_alg.specs.Products.{product};
ghost use Rattle.xc_fixpoint.specs.Functions.{IsFunction};
ghost use Rattle.xc_fixpoint.specs.Lists.{values};
ghost use Rattle.xc_plain.specs.Successors.{IsRow, AreSuccessors, few_joined, weighed_from, IsRowOf, AreRowsOf};

use crate::row::{Row, Successor};
use std::alloc::Global;
use xc_alg::Algebra;
use xc_base::{List, Memory};
use xc_ctl::Framed;

/// The transitions of a machine: those whose value is not the bottom, or all of a state that has many. Each is asked for once.
pub(crate) fn rows_of<M: Framed>(alloc: Global, model: &M) -> Result<List<Row>, Memory>
    requires { (M.frame model.now).states ≤ 4096 }
    ensures { IfOk result (λ rows. AreRowsOf (M.frame model.now) rows) }
{
    let mut rows = List::new(alloc);
    for state in 0..model.states() {
        rows.push(row_of(alloc, model, state)?)?;
    }
    Ok(rows)
}

/// The values of the transitions from a state to all states.
fn values_from<M: Framed>(alloc: Global, model: &M, from: u32) -> Result<List<u16>, Memory>
    requires { from < (M.frame model.now).states }
    ensures range { IfOk result (λ row. IsRow (product (M.frame model.now).parts).size (M.frame model.now).states row) }
    ensures value { IfOk result (λ row. row ≡ values (M.frame model.now).states ((M.frame model.now).relation from)) }
{
    let mut row = List::new(alloc);
    for to in 0..model.states() {
        row.push(model.step(from, to))?;
    }
    Ok(row)
}

/// Appends a successor, unless the value of the transition is the bottom.
fn push_successor(
    few: &mut List<Successor>,
    bottom: u16,
    state: u16,
    value: u16,
) -> Result<(), Memory>
    ensures left { OnOk result (value ≡ bottom → few.new ≡ few.old) }
    ensures pushed { OnOk result (value ≢ bottom → few.new ≡ few.old ++ record { state = state; value = value } ∷ []) }
{
    if value == bottom {
        return Ok(());
    }
    few.push(Successor { state, value })
}

/// The successors in a row of the values of the transitions to all states.
fn successors_of<A: Algebra>(
    alloc: Global,
    algebra: &A,
    row: &[u16],
) -> Result<List<Successor>, Memory>
    requires small { length row.now ≤ 4096 }
    requires row { IsRow (product (A.parts algebra.now)).size (length row.now) row.now }
    ensures safe { IfOk result (λ few. AreSuccessors (product (A.parts algebra.now)).size (length row.now) few) }
    ensures told { IfOk result (λ few. let o = product (A.parts algebra.now) in (f : ℕ → ℕ) → IsFunction o (length row.now) f → few_joined o f o.bottom few ≡ weighed_from o (slice_index row.now) f 0 (length row.now)) }
{
    let bottom = algebra.bottom();
    let mut few = List::new(alloc);
    for state in (0..row.len()).rev() {
        push_successor(&mut few, bottom, state as u16, row[state])?;
    }
    Ok(few)
}

/// The transitions from a state. No more than two bytes for each state are kept.
fn row_of<M: Framed>(alloc: Global, model: &M, from: u32) -> Result<Row, Memory>
    requires few { (M.frame model.now).states ≤ 4096 }
    requires from { from < (M.frame model.now).states }
    ensures { IfOk result (λ row. IsRowOf (product (M.frame model.now).parts) (M.frame model.now).states ((M.frame model.now).relation from) row) }
{
    let values = values_from(alloc, model, from)?;
    let few = successors_of(alloc, model.product(), values.as_slice())?;
    if few.len() > values.len() / 2 {
        Ok(Row::Each(values))
    } else {
        Ok(Row::Few(few))
    }
}
