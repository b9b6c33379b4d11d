use xc_base::{Memory, Word};

/// Why viewpoints do not merge. A viewpoint is named as the map names it.
#[derive(Debug, Drop)]
pub enum MergeFault {
    /// A value of the viewpoint is no element of its lattice.
    UnknownValue { viewpoint: Word, value: Word },
    /// The map names what the viewpoint does not have: a variable, a value of one, or a proposition.
    UnknownName { viewpoint: Word, name: Word },
    /// A variable of the viewpoint is not fed with each value, or it does not tell a proposition.
    NotTotal { viewpoint: Word, name: Word },
    /// The product of the lattices has more than 4,096 elements.
    Elements { count: u64 },
    /// No state is initial.
    NoInitial,
    /// More than 4,096 states are initial.
    Initial { count: u64 },
    Memory,
}

impl From<Memory> for MergeFault {
    ghost use Rattle.std.specs.Prelude.{◌≡◌};
    ghost use Rattle.xc_merge.specs.declared.fault.MergeFault.TheVariants.{Memory as NoMemory};

    ghost from_gives = { λ _ e. e ≡ NoMemory };

    fn from(_e: Memory) -> MergeFault {
        MergeFault::Memory
    }
}
