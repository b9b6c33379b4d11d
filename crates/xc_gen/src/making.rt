//! The shelf of the files that are generated.

ghost use Rattle.std.specs.Prelude.{◌≡◌, ◌≤◌, true, IfOk, IfErr, OnOk};
ghost use Rattle.xc_gen.specs.Generated.{chain_text, diamond_text, formulas_text, generated, is_size, IsFaultOf};

use crate::fault::GenFault;
use crate::maps::map_text;
use crate::side::Side;
use crate::views::view_text;
use std::alloc::Global;
use xc_base::{Memory, MemoryShelf};

#[tactic(auto, unfolding(crate::specs::Generated::chain_text))]
fn chain_text() -> &'static str
    ensures { result.now ≡ chain_text }
{
    "lattice chain\nelements F M T\nbelow F M\nbelow M T\nnot F T\nnot M M\nnot T F\n"
}

#[tactic(auto, unfolding(crate::specs::Generated::diamond_text))]
fn diamond_text() -> &'static str
    ensures { result.now ≡ diamond_text }
{
    "lattice diamond\nelements F N B T\nbelow F N\nbelow F B\nbelow N T\nbelow B T\nnot F T\nnot N N\nnot B B\nnot T F\n"
}

#[tactic(auto, unfolding(crate::specs::Generated::formulas_text))]
fn formulas_text() -> &'static str
    ensures { result.now ≡ formulas_text }
{
    "EF last\nEG !last\nAF last\nAG EF last\n"
}

// The shelf of the files for a number and a size.
fn filled(alloc: Global, number: u32, size: u32) -> Result<MemoryShelf, Memory>
    requires { 1 ≤ size }
    ensures { IfOk result (λ shelf. shelf ≡ generated number size) }
{
    let left = view_text(alloc, Side::Left, number, size)?;
    let right = view_text(alloc, Side::Right, number, size)?;
    let sigmap = map_text(alloc, size)?;
    let mut shelf = MemoryShelf::new(alloc);
    // A shelf has its newest file first.
    shelf.add("gen.ctl", formulas_text().as_bytes())?;
    shelf.add("gen.map", sigmap.as_slice())?;
    shelf.add("right.view", right.as_slice())?;
    shelf.add("left.view", left.as_slice())?;
    shelf.add("diamond.lat", diamond_text().as_bytes())?;
    shelf.add("chain.lat", chain_text().as_bytes())?;
    Ok(shelf)
}

/// A shelf of the files for a number and a size, and of no others: two lattices, a view over each, the map that merges both,
/// and formulas. Its loads fail only at names that it does not hold.
///
/// The size is the number of bits of a counter, and the number decides the weights of the commands. A size is refused, with
/// its number, where it is none from 1 to 20. Else it may run out of memory.
pub fn make(alloc: Global, number: u32, size: u32) -> Result<MemoryShelf, GenFault>
    ensures within { OnOk result (is_size size ≡ true) }
    ensures files { IfOk result (λ shelf. shelf ≡ generated number size) }
    ensures err { IfErr result (IsFaultOf size) }
{
    if size < 1 || size > 20 {
        return Err(GenFault::Size { found: size });
    }
    Ok(filled(alloc, number, size)?)
}
