//! How many codes some parts have.
ghost use Rattle.std.specs.Prelude.{◌≡◌, ◌<◌, ◌≤◌, ℕ, length, slice_index};
ghost use Rattle.xc_theory.specs.Codes.{total};
ghost use Rattle.xc_alg.specs.Products.{product, sizes};
ghost use Rattle.xc_product.specs.Parts.{lattices, weight};

use xc_alg::{Algebra, AnyTable};

/// How many codes the product of the parts has.
pub(crate) fn count(tables: &[AnyTable]) -> u64
    requires { length tables.now ≤ 8 }
    ensures { result ≡ total (sizes (lattices tables.now)) }
{
    let mut count = 1;
    for table in tables {
        count *= u64::from(table.size());
    }
    count
}

/// For each part, how many codes the parts after it have, of the number of codes that all have.
pub(crate) fn weights(tables: &[AnyTable], count: u16) -> [u16; 8]
    requires few { length tables.now ≤ 8 }
    requires count { count ≡ (product (lattices tables.now)).size }
    ensures { (k : ℕ) → k < length tables.now → slice_index result k ≡ weight tables.now k }
{
    let mut weights = [0; 8];
    let mut rest = count;
    for (part, table) in tables.iter().enumerate() {
        rest /= table.size();
        weights[part] = rest;
    }
    weights
}
