//! The elements that laws are judged at.

ghost use Rattle.std.specs.Prelude.{◌≡◌, IfOk};
ghost use Rattle.xc_laws.specs.Tuples.{elements_of};

use std::alloc::Global;
use xc_base::{List, Memory};

/// The elements that break a law, as many as it speaks of.
#[derive(Clone, Copy, Debug, PartialEq, Eq)]
pub(crate) enum Tuple {
    One(u8),
    Two(u8, u8),
    Three(u8, u8, u8),
}

impl Tuple {
    /// The elements as a list.
    pub(crate) fn elements(self, alloc: Global) -> Result<List<u8>, Memory>
        ensures { IfOk result (λ list. list ≡ elements_of self) }
    {
        let mut list = List::new(alloc);
        match self {
            Tuple::One(a) => list.push(a)?,
            Tuple::Two(a, b) => {
                list.push(a)?;
                list.push(b)?;
            }
            Tuple::Three(a, b, c) => {
                list.push(a)?;
                list.push(b)?;
                list.push(c)?;
            }
        }
        Ok(list)
    }
}
