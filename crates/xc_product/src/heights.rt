//! The heights of parts.
ghost use Rattle.std.specs.Prelude.{◌≡◌, ◌<◌, ◌≤◌, ◌+◌, ℕ, length, IfOk};
ghost use Rattle.xc_theory.specs.Chains.{IsHeight};
ghost use Rattle.xc_theory.specs.Lattices.{size};
ghost use Rattle.xc_alg.specs.AnyTables.{lattice_in_any};
ghost use Rattle.xc_product.specs.Parts.{lattices};
ghost use Rattle.xc_product.specs.Heights.{IsSumOfHeights, ListsRows, OnRow};

use std::alloc::Global;
use xc_alg::{Algebra, AnyTable};
use xc_base::{List, Memory};
use xc_order::{Order, Pair};

/// The sum of the heights of some parts.
pub(crate) fn sum_of_heights(alloc: Global, tables: &[AnyTable]) -> Result<u32, Memory>
    requires { length tables.now ≤ 8 }
    ensures { IfOk result (IsSumOfHeights (lattices tables.now)) }
{
    let mut sum = 0;
    for table in tables {
        sum += height(alloc, table)?;
    }
    Ok(sum)
}

fn height(alloc: Global, table: &AnyTable) -> Result<u32, Memory>
    ensures height { IfOk result (IsHeight (lattice_in_any table.now).order) }
    ensures small { IfOk result (λ height. height < 64) }
{
    let pairs = pairs_below(alloc, table)?;
    let order = Order::of(alloc, size(table), &pairs)?;
    Ok(order.height())
}

fn size(table: &AnyTable) -> u8
    ensures size { result ≡ size (lattice_in_any table.now) }
    ensures limit { result ≤ 64 }
{
    table.size() as u8
}

// The pairs of elements of which the first is below the second.
fn pairs_below(alloc: Global, table: &AnyTable) -> Result<List<Pair>, Memory>
    ensures { IfOk result (ListsRows (lattice_in_any table.now) (size (lattice_in_any table.now))) }
{
    let mut pairs = List::new(alloc);
    for low in 0..size(table) {
        push_row(&mut pairs, table, low)?;
    }
    Ok(pairs)
}

// Adds the pairs of an element with those that it is below.
fn push_row(pairs: &mut List<Pair>, table: &AnyTable, low: u8) -> Result<(), Memory>
    requires low { low < size (lattice_in_any table.now) }
    requires rows { ListsRows (lattice_in_any table.now) low pairs.old }
    ensures { IfOk result (λ _. ListsRows (lattice_in_any table.now) (low + 1) pairs.new) }
{
    for high in 0..size(table) {
        push_pair(pairs, table, low, high)?;
    }
    Ok(())
}

// Adds a pair where the first element is below the second.
fn push_pair(pairs: &mut List<Pair>, table: &AnyTable, low: u8, high: u8) -> Result<(), Memory>
    requires low { low < size (lattice_in_any table.now) }
    requires high { high < size (lattice_in_any table.now) }
    requires pairs { OnRow (lattice_in_any table.now) low high pairs.old }
    ensures { IfOk result (λ _. OnRow (lattice_in_any table.now) low (high + 1) pairs.new) }
{
    if table.le(low as u16, high as u16) {
        pairs.push(Pair { low, high })?;
    }
    Ok(())
}
