use xc_base::Memory;

/// Why there is no product of some parts.
#[derive(Clone, Copy, Debug, PartialEq, Eq)]
pub enum ProductFault {
    /// The sizes of the parts multiply to this, more than 4,096.
    TooLarge { size: u64 },
    Memory,
}

impl From<Memory> for ProductFault {
    ghost use Rattle.std.specs.Prelude.{◌≡◌};
    ghost use Rattle.xc_product.specs.declared.fault.ProductFault.TheVariants.{Memory as NoMemory};

    ghost from_gives = { λ _ e. e ≡ NoMemory };

    fn from(_e: Memory) -> ProductFault {
        ProductFault::Memory
    }
}
