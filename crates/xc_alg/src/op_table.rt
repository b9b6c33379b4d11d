//! The table of a lattice's operations.
ghost use Rattle.std.specs.Prelude.{◌≡◌, ◌<◌, ◌≤◌, [], ◌∷◌};
ghost use Rattle.xc_theory.specs.Lattices.{LatticeData};
ghost use Rattle.xc_alg.specs.Operations.{IsAlgebra};
ghost use Rattle.xc_alg.specs.Products.{product};
ghost use Rattle.xc_alg.specs.Tables.{AreTablesOf, entry, lattice_in};

use super::algebra::Algebra;

/// The operations of one lawful lattice, to be looked up by codes.
///
/// It has `n` elements, at least two, and the table has room for `N`.
#[derive(Clone, Copy)]
pub struct OpTable<const N: usize> {
    n: u8,
    meet: [[u8; N]; N],
    join: [[u8; N]; N],
    neg: [u8; N],
    ghost tells: { AreTablesOf (lattice_in n meet neg) n meet join neg },
    ghost fits: { n ≤ N },
    ghost small: { N ≤ 64 },
    // Both follow from the tables. They are kept since an `impl` shows a trait's laws by what the value keeps.
    ghost laws: { IsAlgebra (product (lattice_in n meet neg ∷ [])) },
    ghost limited: { (product (lattice_in n meet neg ∷ [])).size ≤ 4096 },
}

impl<const N: usize> OpTable<N> {
    ghost use Rattle.xc_alg.specs.OpTables.{lattice_of};

    /// The table of a lawful lattice with these meets, joins and negations in the first `n` rows, columns and places.
    pub fn of(n: u8, meet: [[u8; N]; N], join: [[u8; N]; N], neg: [u8; N]) -> OpTable<N>
        requires tables { (l : LatticeData) × AreTablesOf l n meet join neg }
        requires fits { n ≤ N }
        requires small { N ≤ 64 }
        ensures { (l : LatticeData) → AreTablesOf l n meet.entry join.entry neg.entry → lattice_of result ≡ l }
    {
        OpTable { n, meet, join, neg }
    }
}

// What stands in row `a` and column `b`.
fn entry_at<const N: usize>(rows: &[[u8; N]; N], a: u16, b: u16) -> u16
    requires row { a < N }
    requires column { b < N }
    requires small { N ≤ 64 }
    ensures { result ≡ entry rows.now a b }
{
    rows[a as usize][b as usize] as u16
}

impl<const N: usize> Algebra for OpTable<N> {
    ghost use Rattle.xc_alg.specs.OpTables.{lattice_of};

    ghost parts = { λ table. lattice_of table ∷ [] };

    fn size(&self) -> u16 {
        self.n as u16
    }

    fn meet(&self, a: u16, b: u16) -> u16 {
        entry_at(&self.meet, a, b)
    }

    fn join(&self, a: u16, b: u16) -> u16 {
        entry_at(&self.join, a, b)
    }

    fn neg(&self, a: u16) -> u16 {
        self.neg[a as usize] as u16
    }

    fn le(&self, a: u16, b: u16) -> bool {
        entry_at(&self.meet, a, b) == a
    }

    fn bottom(&self) -> u16 {
        let mut least = 0;
        for a in 1..self.n {
            least = entry_at(&self.meet, least, a as u16);
        }
        least
    }

    fn top(&self) -> u16 {
        let mut greatest = 0;
        for a in 1..self.n {
            greatest = entry_at(&self.join, greatest, a as u16);
        }
        greatest
    }

    ghost lawful = { λ table. (table.tells.lawful, table.tells.several, tt) };

    ghost laws = { λ table. table.laws };

    ghost limited = { λ table. table.limited };
}
