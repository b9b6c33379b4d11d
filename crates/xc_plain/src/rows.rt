//! Rows of elements, one for each state, and the operations on them state by state.

ghost use Rattle.std.specs.Prelude.{◌≡◌, ◌<◌, length, IfOk, slice_index};
ghost use Rattle.xc_alg.specs.Products.{product};
ghost use Rattle.xc_fixpoint.specs.Lists.{values};
ghost use Rattle.xc_plain.specs.Successors.{IsRow};

use std::alloc::Global;
use xc_alg::Algebra;
use xc_base::{List, Memory};

/// One element at each state.
pub(crate) fn filled<A: Algebra>(
    alloc: Global,
    _algebra: &A,
    code: u16,
    count: usize,
) -> Result<List<u16>, Memory>
    requires { code < (product (A.parts _algebra.now)).size }
    ensures range { IfOk result (λ row. IsRow (product (A.parts _algebra.now)).size count row) }
    ensures value { IfOk result (λ row. row ≡ values count (λ s. code)) }
{
    let mut row = List::new(alloc);
    for state in 0..count {
        row.push(code)?;
    }
    Ok(row)
}

/// The negations of a row.
pub(crate) fn negations<A: Algebra>(
    alloc: Global,
    algebra: &A,
    codes: &[u16],
) -> Result<List<u16>, Memory>
    requires { IsRow (product (A.parts algebra.now)).size (length codes.now) codes.now }
    ensures range { IfOk result (λ row. IsRow (product (A.parts algebra.now)).size (length codes.now) row) }
    ensures value { IfOk result (λ row. row ≡ values (length codes.now) (λ s. (product (A.parts algebra.now)).negation (slice_index codes.now s))) }
{
    let mut row = List::new(alloc);
    for state in 0..codes.len() {
        row.push(algebra.neg(codes[state]))?;
    }
    Ok(row)
}

/// The meets of two rows.
pub(crate) fn meets<A: Algebra>(
    alloc: Global,
    algebra: &A,
    left: &[u16],
    right: &[u16],
) -> Result<List<u16>, Memory>
    requires left { IsRow (product (A.parts algebra.now)).size (length right.now) left.now }
    requires right { IsRow (product (A.parts algebra.now)).size (length right.now) right.now }
    ensures range { IfOk result (λ row. IsRow (product (A.parts algebra.now)).size (length right.now) row) }
    ensures value { IfOk result (λ row. row ≡ values (length right.now) (λ s. (product (A.parts algebra.now)).meet (slice_index left.now s) (slice_index right.now s))) }
{
    let mut row = List::new(alloc);
    for state in 0..right.len() {
        row.push(algebra.meet(left[state], right[state]))?;
    }
    Ok(row)
}

/// The joins of two rows.
pub(crate) fn joins<A: Algebra>(
    alloc: Global,
    algebra: &A,
    left: &[u16],
    right: &[u16],
) -> Result<List<u16>, Memory>
    requires left { IsRow (product (A.parts algebra.now)).size (length right.now) left.now }
    requires right { IsRow (product (A.parts algebra.now)).size (length right.now) right.now }
    ensures range { IfOk result (λ row. IsRow (product (A.parts algebra.now)).size (length right.now) row) }
    ensures value { IfOk result (λ row. row ≡ values (length right.now) (λ s. (product (A.parts algebra.now)).join (slice_index left.now s) (slice_index right.now s))) }
{
    let mut row = List::new(alloc);
    for state in 0..right.len() {
        row.push(algebra.join(left[state], right[state]))?;
    }
    Ok(row)
}
