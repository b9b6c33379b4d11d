//! What holds at some next state.

ghost use Rattle.std.specs.Prelude.{◌≡◌, ◌<◌, length, IfOk, get_or, slice_index};
ghost use Rattle.xc_alg.specs.Products.{product};
ghost use Rattle.xc_fixpoint.specs.Lists.{values};
ghost use Rattle.xc_plain.specs.Successors.{IsRow, AreSuccessors, few_joined, weighed_from, row_joined, IsSafe, AreSafe, next_by};
ghost use Rattle.xc_plain.specs.declared.row.Successor.{Successor};

use crate::row::{Row, Successor};
use std::alloc::Global;
use xc_alg::Algebra;
use xc_base::{List, Memory};

/// What is joined already with the meet of two elements.
pub(crate) fn with_meet<A: Algebra>(algebra: &A, step: u16, value: u16, sum: u16) -> u16
    requires step { step < (product (A.parts algebra.now)).size }
    requires value { value < (product (A.parts algebra.now)).size }
    requires sum { sum < (product (A.parts algebra.now)).size }
    ensures range { result < (product (A.parts algebra.now)).size }
    ensures value { let o = product (A.parts algebra.now) in result ≡ o.join (o.meet step value) sum }
{
    algebra.join(algebra.meet(step, value), sum)
}

/// What is joined already with what a successor weighs.
#[tactic(auto, using(crate::proofs::Joining::successor_state, crate::proofs::Joining::successor_value))]
fn with_successor<A: Algebra>(
    algebra: &A,
    successors: &[Successor],
    codes: &[u16],
    place: usize,
    sum: u16,
) -> u16
    requires successors { AreSuccessors (product (A.parts algebra.now)).size (length codes.now) successors.now }
    requires codes { IsRow (product (A.parts algebra.now)).size (length codes.now) codes.now }
    requires place { place < length successors.now }
    requires sum { sum < (product (A.parts algebra.now)).size }
    ensures range { result < (product (A.parts algebra.now)).size }
    ensures value { let o = product (A.parts algebra.now) in (other : Successor) → let here = get_or successors.now place other in result ≡ o.join (o.meet here.value (slice_index codes.now here.state)) sum }
{
    let here = successors[place];
    let value = codes[usize::from(here.state)];
    with_meet(algebra, here.value, value, sum)
}

/// The join of what few successors weigh.
fn join_few<A: Algebra>(algebra: &A, successors: &[Successor], codes: &[u16]) -> u16
    requires successors { AreSuccessors (product (A.parts algebra.now)).size (length codes.now) successors.now }
    requires codes { IsRow (product (A.parts algebra.now)).size (length codes.now) codes.now }
    ensures range { result < (product (A.parts algebra.now)).size }
    ensures value { let o = product (A.parts algebra.now) in result ≡ few_joined o (slice_index codes.now) o.bottom successors.now }
{
    let mut sum = algebra.bottom();
    for place in 0..successors.len() {
        sum = with_successor(algebra, successors, codes, place, sum);
    }
    sum
}

/// The join of what each state weighs. What no transition leads to weighs nothing.
#[tactic(auto, using(crate::proofs::Joining::weighed_none, crate::proofs::Joining::weighed_more))]
fn join_each<A: Algebra>(algebra: &A, row: &[u16], codes: &[u16]) -> u16
    requires row { IsRow (product (A.parts algebra.now)).size (length codes.now) row.now }
    requires codes { IsRow (product (A.parts algebra.now)).size (length codes.now) codes.now }
    ensures range { result < (product (A.parts algebra.now)).size }
    ensures value { result ≡ weighed_from (product (A.parts algebra.now)) (slice_index row.now) (slice_index codes.now) 0 (length row.now) }
{
    let mut sum = algebra.bottom();
    for state in (0..row.len()).rev() {
        sum = with_meet(algebra, row[state], codes[state], sum);
    }
    sum
}

/// The join over a row of transitions.
fn join_row<A: Algebra>(algebra: &A, row: &Row, codes: &[u16]) -> u16
    requires row { IsSafe (product (A.parts algebra.now)).size (length codes.now) row.now }
    requires codes { IsRow (product (A.parts algebra.now)).size (length codes.now) codes.now }
    ensures range { result < (product (A.parts algebra.now)).size }
    ensures value { result ≡ row_joined (product (A.parts algebra.now)) (slice_index codes.now) row.now }
{
    match row {
        Row::Few(successors) => join_few(algebra, successors.as_slice(), codes),
        Row::Each(row) => join_each(algebra, row.as_slice(), codes),
    }
}

/// What holds at some next state of each state.
pub(crate) fn next_row<A: Algebra>(
    alloc: Global,
    algebra: &A,
    rows: &[Row],
    codes: &[u16],
) -> Result<List<u16>, Memory>
    requires rows { AreSafe (product (A.parts algebra.now)).size (length codes.now) rows.now }
    requires codes { IsRow (product (A.parts algebra.now)).size (length codes.now) codes.now }
    ensures range { IfOk result (λ row. IsRow (product (A.parts algebra.now)).size (length codes.now) row) }
    ensures value { IfOk result (λ row. row ≡ values (length codes.now) (next_by (product (A.parts algebra.now)) rows.now (slice_index codes.now))) }
{
    let mut next = List::new(alloc);
    for state in 0..rows.len() {
        next.push(join_row(algebra, &rows[state], codes))?;
    }
    Ok(next)
}
