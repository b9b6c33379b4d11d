//! The two viewpoints, and in what they differ.

ghost use Rattle.std.specs.Prelude.{◌≡◌};
ghost use Rattle.xc_gen.specs.Generated.{name_of, lattice_of, weight};

/// One of the two viewpoints of generated files: `left` over a chain, and `right` over a diamond.
#[derive(Clone, Copy, Debug)]
pub enum Side {
    Left,
    Right,
}

impl Side {
    /// Its name.
    pub(crate) fn name(self) -> &'static str
        ensures { result.now ≡ name_of self }
    {
        match self {
            Side::Left => "left",
            Side::Right => "right",
        }
    }

    /// The file of its lattice.
    pub(crate) fn lattice(self) -> &'static str
        ensures { result.now ≡ lattice_of self }
    {
        match self {
            Side::Left => "chain.lat",
            Side::Right => "diamond.lat",
        }
    }

    /// The element with which its command sets that bit.
    pub(crate) fn weight(self, number: u32, bit: u32) -> &'static str
        ensures { result.now ≡ weight self number bit }
    {
        let turn = u64::from(number) + u64::from(bit);
        match self {
            Side::Left => match turn % 5 {
                0 => "M",
                _ => "T",
            },
            Side::Right => match turn % 7 {
                0 => "N",
                5 => "B",
                _ => "T",
            },
        }
    }
}
