//! Equal lattices and tables of them, with memory of their own.

ghost use Rattle.std.specs.Prelude.{◌≡◌, IfOk};

use crate::lattice::Lattice;
use std::alloc::Global;
use xc_alg::AnyTable;
use xc_base::{List, Memory, copy_words};

impl Lattice {
    ghost use Rattle.xc_alg.specs.AnyTables.{lattice_in_any, room_of};
    ghost use Rattle.xc_lattice.specs.Rooms.{least_room};
    ghost use Rattle.xc_lattice.specs.Values.{value_of};
    ghost use Rattle.xc_theory.specs.Lattices.{size};

    /// An equal lattice with memory of its own.
    pub fn copy(&self, alloc: Global) -> Result<Lattice, Memory>
        ensures { IfOk result (λ l. value_of l ≡ value_of self.now) }
    {
        let name = self.name().copy(alloc)?;
        let names = copy_words(alloc, self.names().as_slice())?;
        let order = self.order().copy(alloc)?;
        let negations = List::of(alloc, self.negations().as_slice())?;
        Ok(Lattice::of(name, names, order, negations))
    }

    /// The operation table of the lattice in the least of the three sizes that has room for it.
    pub fn any(&self, alloc: Global) -> Result<AnyTable, Memory>
        ensures same { IfOk result (λ table. lattice_in_any table ≡ (value_of self.now).algebra) }
        ensures least { IfOk result (λ table. room_of table ≡ least_room (size (value_of self.now).algebra)) }
    {
        let size = self.size();
        if size <= 4 {
            Ok(AnyTable::T4(self.table()))
        } else if size <= 16 {
            Ok(AnyTable::T16(self.table()))
        } else {
            Ok(AnyTable::T64(Box::new(alloc, self.table())?))
        }
    }
}
