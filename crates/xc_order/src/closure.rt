//! From pairs to the rows of the order that they span.

ghost use Rattle.std.specs.Prelude.{◌≡◌, ◌<◌, ◌≤◌, length, slice_index_or, IfOk};
ghost use Rattle.xc_order.specs.Pairs.{AreBelow};
ghost use Rattle.xc_order.specs.Order.{IsMatrix};
ghost use Rattle.xc_order.specs.Closure.{own_row, own_rows, HasPairs, either_row, joined_row, closed_through, ClosesBelow, Spans};

use crate::order::Pair;
use std::alloc::Global;
use xc_base::Memory;

fn own_row(a: u8) -> [bool; 64]
    requires { a < 64 }
    ensures { result ≡ own_row a }
{
    let mut row = [false; 64];
    row[a as usize] = true;
    row
}

/// Rows in which each element is below itself alone.
#[tactic(auto, using(crate::proofs::Rows::own_rows_more))]
pub(crate) fn own_rows(alloc: Global, n: u8) -> Result<Vec<[bool; 64]>, Memory>
    requires { n ≤ 64 }
    ensures { IfOk result (λ rows. rows.items ≡ own_rows n) }
{
    let mut rows = Vec::new(alloc);
    for a in 0..n {
        rows.push(own_row(a))?;
    }
    Ok(rows)
}

/// Makes the rows of the order that the pairs span, of rows in which each element is below itself alone.

pub(crate) fn span(rows: &mut [[bool; 64]], n: u8, pairs: &[Pair])
    requires positive { 0 < n }
    requires limit { n ≤ 64 }
    requires pairs { AreBelow n pairs.now }
    requires rows { rows.old ≡ own_rows n }
    ensures { Spans n pairs.now rows.new }
{
    add_pairs(rows, n, pairs);
    close(rows, n);
}

fn add_pairs(rows: &mut [[bool; 64]], n: u8, pairs: &[Pair])
    requires limit { n ≤ 64 }
    requires pairs { AreBelow n pairs.now }
    requires rows { HasPairs n pairs.now 0 rows.old }
    ensures { HasPairs n pairs.now (length pairs.now) rows.new }
{
    for p in pairs {
        rows[p.low as usize][p.high as usize] = true;
    }
}

#[tactic(auto, using(crate::proofs::Rows::closes_none))]
fn close(rows: &mut [[bool; 64]], n: u8)
    requires limit { n ≤ 64 }
    requires rows { IsMatrix n rows.old }
    ensures { ClosesBelow n n rows.old rows.new }
{
    for k in 0..n {
        close_through(rows, k);
    }
}

fn close_through(rows: &mut [[bool; 64]], k: u8)
    requires limit { length rows.old ≤ 64 }
    requires k_in { k < length rows.old }
    ensures { rows.new ≡ closed_through k rows.old }
{
    let via = rows[k as usize];
    for row in rows.iter_mut() {
        *row = joined_row(*row, via, k);
    }
}

fn joined_row(row: [bool; 64], via: [bool; 64], k: u8) -> [bool; 64]
    requires { k < 64 }
    ensures { result ≡ joined_row k via row }
{
    if row[k as usize] {
        either_row(row, via)
    } else {
        row
    }
}

#[tactic(auto, using(crate::proofs::Rows::either_row_all))]
fn either_row(row: [bool; 64], via: [bool; 64]) -> [bool; 64]
    ensures { result ≡ either_row row via }
{
    let mut both = row;
    for b in 0..64 {
        both[b] = row[b] || via[b];
    }
    both
}
