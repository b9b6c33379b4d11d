//! The operations of a lattice, written out as tables.

ghost use Rattle.std.specs.Prelude.{◌≡◌, ◌<◌, ◌≤◌, ℕ, length, slice_index, [], ◌∷◌};
ghost use Rattle.xc_theory.specs.Bounds.{meet_of, join_of};
ghost use Rattle.xc_alg.specs.Tables.{entry};

use crate::lattice::Lattice;
use xc_alg::OpTable;
use xc_order::Order;

impl Lattice {
    ghost use Rattle.xc_theory.specs.Lattices.{size};
    ghost use Rattle.xc_alg.specs.OpTables.{lattice_of};
    ghost use Rattle.xc_lattice.specs.Values.{value_of};

    /// The operation table of the lattice, with room for `N` elements.
    pub fn table<const N: usize>(&self) -> OpTable<N>
        requires room { size (value_of self.now).algebra ≤ N }
        requires limit { N ≤ 64 }
        ensures { lattice_of result ≡ (value_of self.now).algebra }
    {
        let order = self.order();
        OpTable::of(
            self.size(),
            meet_rows(order),
            join_rows(order),
            negation_row(self.negations().as_slice()),
        )
    }
}

// An element's greatest lower bound with each element.
fn meet_row<const N: usize>(order: &Order, a: u8) -> [u8; N]
    requires element { a < length order.now }
    requires room { length order.now ≤ N }
    requires limit { N ≤ 64 }
    ensures { (b : ℕ) → b < length order.now → slice_index result b ≡ meet_of order.now (a ∷ b ∷ []) }
{
    let mut row = [0; N];
    for b in 0..order.size() {
        row[b as usize] = order.glb(a, b).unwrap_or(0);
    }
    row
}

// An element's least upper bound with each element.
fn join_row<const N: usize>(order: &Order, a: u8) -> [u8; N]
    requires element { a < length order.now }
    requires room { length order.now ≤ N }
    requires limit { N ≤ 64 }
    ensures { (b : ℕ) → b < length order.now → slice_index result b ≡ join_of order.now (a ∷ b ∷ []) }
{
    let mut row = [0; N];
    for b in 0..order.size() {
        row[b as usize] = order.lub(a, b).unwrap_or(0);
    }
    row
}

fn meet_rows<const N: usize>(order: &Order) -> [[u8; N]; N]
    requires room { length order.now ≤ N }
    requires limit { N ≤ 64 }
    ensures { (a b : ℕ) → a < length order.now → b < length order.now
        → entry result a b ≡ meet_of order.now (a ∷ b ∷ []) }
{
    let mut rows = [[0; N]; N];
    for a in 0..order.size() {
        rows[a as usize] = meet_row(order, a);
    }
    rows
}

fn join_rows<const N: usize>(order: &Order) -> [[u8; N]; N]
    requires room { length order.now ≤ N }
    requires limit { N ≤ 64 }
    ensures { (a b : ℕ) → a < length order.now → b < length order.now
        → entry result a b ≡ join_of order.now (a ∷ b ∷ []) }
{
    let mut rows = [[0; N]; N];
    for a in 0..order.size() {
        rows[a as usize] = join_row(order, a);
    }
    rows
}

// The negation of each element, as a row with room for more.
fn negation_row<const N: usize>(negations: &[u8]) -> [u8; N]
    requires room { length negations.now ≤ N }
    requires limit { N ≤ 64 }
    ensures { (a : ℕ) → a < length negations.now → slice_index result a ≡ slice_index negations.now a }
{
    let mut row = [0; N];
    for (a, negation) in negations.iter().enumerate() {
        row[a] = *negation;
    }
    row
}
