use xc_base::Memory;

/// Why there are no files of a size.
#[derive(Clone, Copy, Debug, PartialEq, Eq)]
pub enum GenFault {
    /// The size is none from 1 to 20.
    Size { found: u32 },
    Memory,
}

impl From<Memory> for GenFault {
    ghost use Rattle.std.specs.Prelude.{◌≡◌};
    ghost use Rattle.xc_gen.specs.declared.fault.GenFault.TheVariants.{Memory as NoMemory};

    ghost from_gives = { λ _ e. e ≡ NoMemory };

    fn from(_e: Memory) -> GenFault {
        GenFault::Memory
    }
}
