//! The rounds in which a fixpoint is reached.

ghost use Rattle.std.specs.Prelude.{◌≡◌, ◌<◌, ◌≤◌, length, IfOk, slice_index};
ghost use Rattle.xc_alg.specs.Products.{product};
ghost use Rattle.xc_fixpoint.specs.Iterates.{start};
ghost use Rattle.xc_plain.specs.Successors.{IsRow, AreSafe};
ghost use Rattle.xc_plain.specs.Told.{step_by, goes_up};
ghost use Rattle.xc_plain.specs.Settled.{AreRounds};

use crate::form::{Form, step_row};
use crate::row::Row;
use crate::rows::filled;
use std::alloc::Global;
use xc_alg::Algebra;
use xc_base::{List, Memory};

/// Where the iterates begin.
fn start_of<A: Algebra>(algebra: &A, form: Form) -> u16
    ensures range { result < (product (A.parts algebra.now)).size }
    ensures value { result ≡ start (product (A.parts algebra.now)) (goes_up form) }
{
    match form {
        Form::SomeUntil => algebra.bottom(),
        Form::EachUntil => algebra.bottom(),
        Form::Always => algebra.top(),
    }
}

/// The iterates of a fixpoint, up to the first that a step leaves as it is.
#[tactic(auto, using(crate::proofs::Joining::row_beside, crate::proofs::Joining::safe_beside))]
pub(crate) fn rounds_of<A: Algebra>(
    alloc: Global,
    algebra: &A,
    rows: &[Row],
    form: Form,
    left: &[u16],
    right: &[u16],
) -> Result<List<List<u16>>, Memory>
    requires rows { AreSafe (product (A.parts algebra.now)).size (length rows.now) rows.now }
    requires left { IsRow (product (A.parts algebra.now)).size (length rows.now) left.now }
    requires right { IsRow (product (A.parts algebra.now)).size (length rows.now) right.now }
    ensures { IfOk result (λ iterates. let o = product (A.parts algebra.now) in AreRounds o (goes_up form) (length rows.now) (step_by o rows.now form (slice_index left.now) (slice_index right.now)) iterates) }
{
    let mut iterates = List::new(alloc);
    let mut row = filled(alloc, algebra, start_of(algebra, form), rows.len())?;
    'rounds: loop {
        let next = step_row(alloc, algebra, rows, form, left, right, row.as_slice())?;
        let settled = next.as_slice() == row.as_slice();
        iterates.push(row)?;
        if settled {
            return Ok(iterates);
        }
        row = next;
    }
}
