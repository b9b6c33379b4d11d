//! One step of a fixpoint, at all states.

ghost use Rattle.std.specs.Prelude.{◌≡◌, ◌<◌, length, IfOk, slice_index};
ghost use Rattle.xc_alg.specs.Products.{product};
ghost use Rattle.xc_fixpoint.specs.Lists.{values};
ghost use Rattle.xc_plain.specs.Successors.{IsRow, AreSafe, next_by};
ghost use Rattle.xc_plain.specs.Told.{all_next_by, some_until_by, each_until_by, always_by, step_by};

use crate::next::next_row;
use crate::row::Row;
use crate::rows::{joins, meets, negations};
use std::alloc::Global;
use xc_alg::Algebra;
use xc_base::{List, Memory};

/// The three kinds of formulas that are fixpoints.
#[derive(Clone, Copy, Debug)]
pub(crate) enum Form {
    /// `E[f U g]`
    SomeUntil,
    /// `A[f U g]`
    EachUntil,
    /// `EG f`
    Always,
}

/// What holds at all next states: at none of them holds its negation.
fn all_next_row<A: Algebra>(
    alloc: Global,
    algebra: &A,
    rows: &[Row],
    codes: &[u16],
) -> Result<List<u16>, Memory>
    requires rows { AreSafe (product (A.parts algebra.now)).size (length codes.now) rows.now }
    requires codes { IsRow (product (A.parts algebra.now)).size (length codes.now) codes.now }
    ensures range { IfOk result (λ row. IsRow (product (A.parts algebra.now)).size (length codes.now) row) }
    ensures value { IfOk result (λ row. row ≡ values (length codes.now) (all_next_by (product (A.parts algebra.now)) rows.now (slice_index codes.now))) }
{
    let negated = negations(alloc, algebra, codes)?;
    let next = next_row(alloc, algebra, rows, negated.as_slice())?;
    let row = negations(alloc, algebra, next.as_slice())?;
    Ok(row)
}

/// The step of `EG f`.
fn always_row<A: Algebra>(
    alloc: Global,
    algebra: &A,
    rows: &[Row],
    left: &[u16],
    codes: &[u16],
) -> Result<List<u16>, Memory>
    requires rows { AreSafe (product (A.parts algebra.now)).size (length codes.now) rows.now }
    requires left { IsRow (product (A.parts algebra.now)).size (length codes.now) left.now }
    requires codes { IsRow (product (A.parts algebra.now)).size (length codes.now) codes.now }
    ensures range { IfOk result (λ row. IsRow (product (A.parts algebra.now)).size (length codes.now) row) }
    ensures value { IfOk result (λ row. row ≡ values (length codes.now) (always_by (product (A.parts algebra.now)) rows.now (slice_index left.now) (slice_index codes.now))) }
{
    let next = next_row(alloc, algebra, rows, codes)?;
    let row = meets(alloc, algebra, left, next.as_slice())?;
    Ok(row)
}

/// The step of `E[f U g]`.
fn some_until_row<A: Algebra>(
    alloc: Global,
    algebra: &A,
    rows: &[Row],
    left: &[u16],
    right: &[u16],
    codes: &[u16],
) -> Result<List<u16>, Memory>
    requires rows { AreSafe (product (A.parts algebra.now)).size (length codes.now) rows.now }
    requires left { IsRow (product (A.parts algebra.now)).size (length codes.now) left.now }
    requires right { IsRow (product (A.parts algebra.now)).size (length codes.now) right.now }
    requires codes { IsRow (product (A.parts algebra.now)).size (length codes.now) codes.now }
    ensures range { IfOk result (λ row. IsRow (product (A.parts algebra.now)).size (length codes.now) row) }
    ensures value { IfOk result (λ row. row ≡ values (length codes.now) (some_until_by (product (A.parts algebra.now)) rows.now (slice_index left.now) (slice_index right.now) (slice_index codes.now))) }
{
    let later = always_row(alloc, algebra, rows, left, codes)?;
    let row = joins(alloc, algebra, right, later.as_slice())?;
    Ok(row)
}

/// The step of `A[f U g]`.
fn each_until_row<A: Algebra>(
    alloc: Global,
    algebra: &A,
    rows: &[Row],
    left: &[u16],
    right: &[u16],
    codes: &[u16],
) -> Result<List<u16>, Memory>
    requires rows { AreSafe (product (A.parts algebra.now)).size (length codes.now) rows.now }
    requires left { IsRow (product (A.parts algebra.now)).size (length codes.now) left.now }
    requires right { IsRow (product (A.parts algebra.now)).size (length codes.now) right.now }
    requires codes { IsRow (product (A.parts algebra.now)).size (length codes.now) codes.now }
    ensures range { IfOk result (λ row. IsRow (product (A.parts algebra.now)).size (length codes.now) row) }
    ensures value { IfOk result (λ row. row ≡ values (length codes.now) (each_until_by (product (A.parts algebra.now)) rows.now (slice_index left.now) (slice_index right.now) (slice_index codes.now))) }
{
    let all = all_next_row(alloc, algebra, rows, codes)?;
    let some = next_row(alloc, algebra, rows, codes)?;
    let both = meets(alloc, algebra, all.as_slice(), some.as_slice())?;
    let later = meets(alloc, algebra, left, both.as_slice())?;
    let row = joins(alloc, algebra, right, later.as_slice())?;
    Ok(row)
}

/// One step of a fixpoint.
pub(crate) fn step_row<A: Algebra>(
    alloc: Global,
    algebra: &A,
    rows: &[Row],
    form: Form,
    left: &[u16],
    right: &[u16],
    codes: &[u16],
) -> Result<List<u16>, Memory>
    requires rows { AreSafe (product (A.parts algebra.now)).size (length codes.now) rows.now }
    requires left { IsRow (product (A.parts algebra.now)).size (length codes.now) left.now }
    requires right { IsRow (product (A.parts algebra.now)).size (length codes.now) right.now }
    requires codes { IsRow (product (A.parts algebra.now)).size (length codes.now) codes.now }
    ensures range { IfOk result (λ row. IsRow (product (A.parts algebra.now)).size (length codes.now) row) }
    ensures value { IfOk result (λ row. row ≡ values (length codes.now) (step_by (product (A.parts algebra.now)) rows.now form (slice_index left.now) (slice_index right.now) (slice_index codes.now))) }
{
    match form {
        Form::SomeUntil => some_until_row(alloc, algebra, rows, left, right, codes),
        Form::EachUntil => each_until_row(alloc, algebra, rows, left, right, codes),
        Form::Always => always_row(alloc, algebra, rows, left, codes),
    }
}
