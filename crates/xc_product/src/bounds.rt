//! Bounds of digits, part by part.
ghost use Rattle.std.specs.Prelude.{◌≡◌, ◌+◌, ◌*◌, ◌<◌, ◌≤◌, ℕ, List as Items, [], ◌∷◌, length, slice_index};
ghost use Rattle.xc_alg.specs.AnyTables.{lattice_in_any};
ghost use Rattle.xc_alg.specs.Products.{product};
ghost use Rattle.xc_product.specs.Bounds.{bound_of, bound_of_none};
ghost use Rattle.xc_product.specs.Parts.{lattices, weight};

use xc_alg::{Algebra, AnyTable};

/// Which bound of elements is taken.
#[derive(Clone, Copy)]
pub(crate) enum Bound {
    /// The greatest lower bound.
    Meet,
    /// The least upper bound.
    Join,
}

/// The bound of two elements of one part.
pub(crate) fn bound_in_part(table: &AnyTable, which: Bound, a: u16, b: u16) -> u16
    requires left { a < (product (lattice_in_any table.now ∷ [])).size }
    requires right { b < (product (lattice_in_any table.now ∷ [])).size }
    ensures { result ≡ bound_of which (product (lattice_in_any table.now ∷ [])) a b }
{
    match which {
        Bound::Meet => table.meet(a, b),
        Bound::Join => table.join(a, b),
    }
}

/// The bound of no elements of one part: its top is the meet of none, its bottom the join of none.
fn none_in_part(table: &AnyTable, which: Bound) -> u16
    ensures { result ≡ bound_of_none which (product (lattice_in_any table.now ∷ [])) }
{
    match which {
        Bound::Meet => table.top(),
        Bound::Join => table.bottom(),
    }
}

/// A code with one digit more, by the weight of the digit's part.
pub(crate) fn with_digit(code: u16, digit: u16, weight: u16) -> u16
    requires { code + digit * weight ≤ 4096 }
    ensures { result ≡ code + digit * weight }
{
    code + digit * weight
}

/// The code of the bound of no elements of each part.
pub(crate) fn code_of_none(tables: &[AnyTable], weights: &[u16; 8], which: Bound) -> u16
    requires few { length tables.now ≤ 8 }
    requires limit { (product (lattices tables.now)).size ≤ 4096 }
    requires weights { (k : ℕ) → k < length tables.now → slice_index weights.now k ≡ weight tables.now k }
    ensures { result ≡ bound_of_none which (product (lattices tables.now)) }
{
    let mut code = 0;
    for (part, table) in tables.iter().enumerate() {
        code = with_digit(code, none_in_part(table, which), weights[part]);
    }
    code
}
