//! What is worked out of a map and its viewpoints.

ghost use Rattle.std.specs.Prelude.{◌≡◌, [], length, map, IfOk, IfErr};
ghost use Rattle.xc_product.specs.Parts.{lattices};
ghost use Rattle.xc_sigmap.specs.Maps.{value_of as map_of};
ghost use Rattle.xc_merge.specs.Merging.{merge_in};
ghost use Rattle.xc_merge.specs.Faults.{all_faults};
ghost use Rattle.xc_merged.specs.Gathering.{AreTabled, names_in, operations};

use crate::merged::Merged;
use crate::tables::Tables;
use crate::tabulate::tabulate;
use std::alloc::Global;
use xc_alg::AnyTable;
use xc_base::{List, Memory, Word, copy_words};
use xc_lattice::Lattice;
use xc_merge::MergeFault;
use xc_product::{Product, ProductFault};
use xc_sigmap::SigMap;
use xc_view::View;

/// The tables of each viewpoint.
fn tables_of(
    alloc: Global,
    sigmap: &SigMap,
    views: &List<(View, Lattice)>,
) -> Result<List<Tables>, Memory>
    requires { all_faults (merge_in sigmap.now views.now) ≡ [] }
    ensures { IfOk result (AreTabled sigmap.now views.now (length views.now)) }
{
    let mut tables = List::new(alloc);
    for v in 0..views.len() {
        let pair = views.get(v);
        let table = tabulate(alloc, sigmap, v, &pair.0, &pair.1)?;
        tables.push(table)?;
    }
    Ok(tables)
}

/// The operations of the viewpoints' lattices.
fn operations_of(alloc: Global, tables: &[Tables]) -> Result<List<AnyTable>, Memory>
    ensures { IfOk result (λ list. lattices list ≡ map operations tables.now) }
{
    let mut list = List::new(alloc);
    for table in tables {
        list.push(table.operations.copy(alloc)?)?;
    }
    Ok(list)
}

/// The names of the elements of each viewpoint's lattice.
fn names_of(alloc: Global, views: &[(View, Lattice)]) -> Result<List<List<Word>>, Memory>
    ensures { IfOk result (λ list. list ≡ map names_in views.now) }
{
    let mut list = List::new(alloc);
    for pair in views {
        list.push(copy_words(alloc, pair.1.names().as_slice())?)?;
    }
    Ok(list)
}

impl Merged {
    ghost use Rattle.std.specs.Prelude.{◌≤◌};
    ghost use Rattle.xc_theory.specs.Codes.{total};
    ghost use Rattle.xc_alg.specs.Products.{sizes};
    ghost use Rattle.xc_product.specs.Products.{parts_of as factors_of};
    ghost use Rattle.xc_merge.specs.Merges.{parts_of, names_of_parts};
    ghost use Rattle.xc_merge.specs.Faults.{IsRefusal};
    ghost use Rattle.xc_merged.specs.Gathered.{merged_of};

    /// A map and its viewpoints, which have no faults, with the tables of each.
    pub fn of(alloc: Global, sigmap: SigMap, views: List<(View, Lattice)>) -> Result<Merged, Memory>
        requires one_each { length views ≡ length (map_of sigmap).uses }
        requires faultless { all_faults (merge_in sigmap views) ≡ [] }
        ensures { IfOk result (λ m. merged_of m ≡ merge_in sigmap views) }
    {
        let tables = tables_of(alloc, &sigmap, &views)?;
        Ok(Merged {
            sigmap,
            views,
            tables,
        })
    }

    /// The product of the viewpoints' lattices.
    pub fn product(&self, alloc: Global) -> Result<Product, MergeFault>
        requires { all_faults (merged_of self.now) ≡ [] }
        ensures ok { IfOk result (λ p. factors_of p ≡ parts_of (merged_of self.now)) }
        ensures limit { IfOk result (λ p. total (sizes (parts_of (merged_of self.now))) ≤ 4096) }
        ensures err { IfErr result (IsRefusal (merged_of self.now)) }
    {
        self.sigmap.is_sound();
        let list = operations_of(alloc, self.tables.as_slice())?;
        match Product::of(alloc, list) {
            Ok(product) => Ok(product),
            Err(ProductFault::TooLarge { size }) => Err(MergeFault::Elements { count: size }),
            Err(ProductFault::Memory) => Err(MergeFault::Memory),
        }
    }

    /// The names of the elements of each part.
    pub fn part_names(&self, alloc: Global) -> Result<List<List<Word>>, Memory>
        ensures { IfOk result (λ names. names ≡ names_of_parts (merged_of self.now)) }
    {
        let names = names_of(alloc, self.views.as_slice())?;
        Ok(names)
    }
}
