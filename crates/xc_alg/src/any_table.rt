//! The table of a lattice's operations, in one of three sizes.
ghost use Rattle.std.specs.Prelude.{◌≡◌, IfOk};

use super::algebra::Algebra;
use super::op_table::OpTable;
use std::alloc::{AllocError, Global};

/// A table with room for 4, 16 or 64 elements.
#[derive(Drop)]
pub enum AnyTable {
    T4(OpTable<4>),
    T16(OpTable<16>),
    T64(Box<OpTable<64>>),
}

impl AnyTable {
    ghost use Rattle.xc_alg.specs.AnyTables.{lattice_in_any, room_of};

    /// A table of the same lattice and the same room with memory of its own.
    pub fn copy(&self, alloc: Global) -> Result<AnyTable, AllocError>
        ensures same { IfOk result (λ table. lattice_in_any table ≡ lattice_in_any self.now) }
        ensures room { IfOk result (λ table. room_of table ≡ room_of self.now) }
    {
        match self {
            AnyTable::T4(table) => Ok(AnyTable::T4(*table)),
            AnyTable::T16(table) => Ok(AnyTable::T16(*table)),
            AnyTable::T64(table) => Ok(AnyTable::T64(Box::new(alloc, **table)?)),
        }
    }
}

impl Algebra for AnyTable {
    ghost use Rattle.std.specs.Prelude.{[], ◌∷◌};
    ghost use Rattle.xc_alg.specs.AnyTables.{lattice_in_any};
    ghost use Rattle.xc_alg.specs.declared.any_table.AnyTable.TheVariants.{T4, T16, T64};

    ghost parts = { λ table. lattice_in_any table ∷ [] };

    fn size(&self) -> u16 {
        match self {
            AnyTable::T4(table) => table.size(),
            AnyTable::T16(table) => table.size(),
            AnyTable::T64(table) => table.size(),
        }
    }

    fn meet(&self, a: u16, b: u16) -> u16 {
        match self {
            AnyTable::T4(table) => table.meet(a, b),
            AnyTable::T16(table) => table.meet(a, b),
            AnyTable::T64(table) => table.meet(a, b),
        }
    }

    fn join(&self, a: u16, b: u16) -> u16 {
        match self {
            AnyTable::T4(table) => table.join(a, b),
            AnyTable::T16(table) => table.join(a, b),
            AnyTable::T64(table) => table.join(a, b),
        }
    }

    fn neg(&self, a: u16) -> u16 {
        match self {
            AnyTable::T4(table) => table.neg(a),
            AnyTable::T16(table) => table.neg(a),
            AnyTable::T64(table) => table.neg(a),
        }
    }

    fn le(&self, a: u16, b: u16) -> bool {
        match self {
            AnyTable::T4(table) => table.le(a, b),
            AnyTable::T16(table) => table.le(a, b),
            AnyTable::T64(table) => table.le(a, b),
        }
    }

    fn bottom(&self) -> u16 {
        match self {
            AnyTable::T4(table) => table.bottom(),
            AnyTable::T16(table) => table.bottom(),
            AnyTable::T64(table) => table.bottom(),
        }
    }

    fn top(&self) -> u16 {
        match self {
            AnyTable::T4(table) => table.top(),
            AnyTable::T16(table) => table.top(),
            AnyTable::T64(table) => table.top(),
        }
    }

    ghost lawful = { elim [
      | T4 table ↦ (table.tells.lawful, table.tells.several, tt)
      | T16 table ↦ (table.tells.lawful, table.tells.several, tt)
      | T64 table ↦ (table.value.tells.lawful, table.value.tells.several, tt)
    ] };

    ghost laws = { elim [ T4 table ↦ table.laws | T16 table ↦ table.laws | T64 table ↦ table.value.laws ] };

    ghost limited = { elim [ T4 table ↦ table.limited | T16 table ↦ table.limited | T64 table ↦ table.value.limited ] };
}
