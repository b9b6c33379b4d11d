//! The elements of the values of a view, and of a map's words for them.

ghost use Rattle.std.specs.Prelude.{◌≡◌, map, IfOk};
ghost use Rattle.xc_base.specs.Names.{place_of};
ghost use Rattle.xc_lattice.specs.Values.{value_of as lattice_of};
ghost use Rattle.xc_merged.specs.Tabled.{IsGood};
ghost use Rattle.xc_merged.specs.Elements.{command_code, line_code};

use std::alloc::Global;
use xc_base::{Bytes, List, Memory, Word};
use xc_lattice::Lattice;
use xc_view::{Command, PropLine};

/// A lattice has 2 to 64 elements, each with a name of its own, and the laws of a lattice with an involution hold of it.
pub fn is_good(lattice: &Lattice)
    ensures { IsGood (lattice_of lattice.now) }
{
    lattice.laws_hold();
    let _size = lattice.size();
    let _names = lattice.names();
}

/// The element of that name, and the number of elements where there is none.
#[tactic(auto, using(xc_base::proofs::Naming::place_from))]
pub(crate) fn element(lattice: &Lattice, word: &Word) -> u8
    ensures { result ≡ place_of (lattice_of lattice.now).names word.now }
{
    lattice.find(word).unwrap_or(lattice.size())
}

/// The elements of the values of commands.
pub(crate) fn command_codes(
    alloc: Global,
    lattice: &Lattice,
    commands: &[Command],
) -> Result<Bytes, Memory>
    ensures { IfOk result (λ codes. codes ≡ map (command_code (lattice_of lattice.now).names) commands.now) }
{
    let mut codes = List::new(alloc);
    for c in commands {
        codes.push(element(lattice, &c.value))?;
    }
    Ok(codes)
}

/// The elements of the values of lines.
pub(crate) fn line_codes(
    alloc: Global,
    lattice: &Lattice,
    lines: &[PropLine],
) -> Result<Bytes, Memory>
    ensures { IfOk result (λ codes. codes ≡ map (line_code (lattice_of lattice.now).names) lines.now) }
{
    let mut codes = List::new(alloc);
    for l in lines {
        codes.push(element(lattice, &l.value))?;
    }
    Ok(codes)
}
