ghost use Rattle.std.specs.Prelude.{◌≡◌, ◌≤◌, true, false, length};
ghost use Rattle.std.specs.List.{list_all};
ghost use Rattle.xc_base.specs.Names.{has_twice};
ghost use Rattle.xc_base.specs.Words.{is_name};
ghost use Rattle.xc_theory.specs.Lattices.{IsLawful};

use crate::gather::find_name;
use xc_base::{List, Word};
use xc_order::Order;

/// A finite quasi-Boolean algebra of 2 to 64 elements, each with a name.
///
/// Elements are named by their places in the list of names.
#[derive(Debug, Drop)]
pub struct Lattice {
    name: Word,
    names: List<Word>,
    order: Order,
    negations: List<u8>,
    ghost lawful: { IsLawful (record { order = order; negations = negations }) },
    ghost titled: { is_name name ≡ true },
    ghost named: { length names ≡ length order },
    ghost names_are: { list_all is_name names ≡ true },
    ghost different: { has_twice names ≡ false },
    ghost some: { 2 ≤ length order },
    ghost few: { length order ≤ 64 },
}

impl Lattice {
    ghost use Rattle.std.specs.Prelude.{[], ◌<◌};
    ghost use Rattle.std.specs.List.{position};
    ghost use Rattle.std.specs.Str.{bytes_eq};
    ghost use Rattle.xc_theory.specs.Bounds.{IsMeet, IsJoin};
    ghost use Rattle.xc_theory.specs.Chains.{IsHeight};
    ghost use Rattle.xc_theory.specs.Lattices.{size, bottom, top};
    ghost use Rattle.xc_lattice.specs.Values.{value_of};

    /// The lattice of a name, its elements' names, their order and their negations.
    pub(crate) fn of(name: Word, names: List<Word>, order: Order, negations: List<u8>) -> Lattice
        requires lawful { IsLawful (record { order = order; negations = negations }) }
        requires titled { is_name name ≡ true }
        requires named { length names ≡ length order }
        requires names_are { list_all is_name names ≡ true }
        requires different { has_twice names ≡ false }
        requires some { 2 ≤ length order }
        requires few { length order ≤ 64 }
        ensures { value_of result
            ≡ record { name = name; names = names; algebra = record { order = order; negations = negations } } }
    {
        Lattice {
            name,
            names,
            order,
            negations,
        }
    }

    /// Its name, which is a name.
    pub fn name(&self) -> &Word
        ensures name { result.now ≡ (value_of self.now).name }
        ensures titled { is_name (value_of self.now).name ≡ true }
    {
        &self.name
    }

    /// The names of its elements, in order. Each is a name, and no two are the same.
    pub fn names(&self) -> &List<Word>
        ensures names { result.now ≡ (value_of self.now).names }
        ensures named { list_all is_name (value_of self.now).names ≡ true }
        ensures different { has_twice (value_of self.now).names ≡ false }
    {
        &self.names
    }

    /// The order of its elements.
    pub fn order(&self) -> &Order
        ensures { result.now ≡ (value_of self.now).algebra.order }
    {
        &self.order
    }

    /// The negation of each element.
    pub fn negations(&self) -> &List<u8>
        ensures { result.now ≡ (value_of self.now).algebra.negations }
    {
        &self.negations
    }

    /// How many elements it has: from 2 to 64, each with a name.
    pub fn size(&self) -> u8
        ensures size { result ≡ size (value_of self.now).algebra }
        ensures named { result ≡ length (value_of self.now).names }
        ensures some { 2 ≤ result }
        ensures few { result ≤ 64 }
    {
        self.order.size()
    }

    /// How many steps upward can follow one another at most, each to a greater element.
    pub fn height(&self) -> u32
        ensures { IsHeight (value_of self.now).algebra.order result }
    {
        self.order.height()
    }

    /// The element that is below all.
    pub fn bottom(&self) -> u8
        ensures bottom { result ≡ bottom (value_of self.now).algebra }
        ensures least { IsJoin (value_of self.now).algebra.order [] result }
    {
        self.order.first_below_all().unwrap_or(0)
    }

    /// The element that is above all.
    pub fn top(&self) -> u8
        ensures top { result ≡ top (value_of self.now).algebra }
        ensures greatest { IsMeet (value_of self.now).algebra.order [] result }
    {
        self.order.first_above_all().unwrap_or(0)
    }

    /// The element of that name, where there is one.
    pub fn find(&self, name: &Word) -> Option<u8>
        ensures { result ≡ position (bytes_eq name.now) (value_of self.now).names }
    {
        find_name(self.names.as_slice(), name)
    }

    /// The laws of a lattice with an involution hold of it.
    pub fn laws_hold(&self)
        ensures { IsLawful (value_of self.now).algebra }
    {}
}
