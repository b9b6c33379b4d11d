//! Which law of a lattice fails first, and at which elements.

ghost use Rattle.std.specs.Prelude.{◌≡◌, ◌<◌, ℕ, length, slice_index, IfOk, [], ◌∷◌, find, option_map, All};
ghost use Rattle.std.specs.List.{range_with_len};
ghost use Rattle.xc_theory.specs.Lattices.{size};
ghost use Rattle.xc_laws.specs.Breaks.{breaks, tuples, first_tuple, first_break};
ghost use Rattle.xc_laws.specs.Lawful.{LawfulWithoutBreak, LawfulIsUnbroken};
ghost use Rattle.xc_laws.specs.Bounded.{lattice_of};
ghost use Rattle.xc_laws.specs.Tuples.{elements_of, pair_of, break_of};

use crate::bounded::Bounded;
use crate::law::Law;
use crate::tuple::Tuple;
use std::alloc::Global;
use xc_base::{List, Memory};
use xc_order::Order;

/// A law, and elements that break it.
#[derive(Debug, Drop)]
pub struct Break {
    pub law: Law,
    pub elements: List<u8>,
}

/// The laws in the order in which they are looked at.
const LAWS: [Law; 6] = [
    Law::Antisymmetry,
    Law::Meet,
    Law::Join,
    Law::Distributive,
    Law::Involution,
    Law::Antitone,
];

/// The first of the laws that some elements break, with the first elements that do; None where all laws hold.
///
/// It fails where there is no memory.
pub fn find_break(alloc: Global, order: &Order, negations: &[u8]) -> Result<Option<Break>, Memory>
    requires one_each { length negations.now ≡ length order.now }
    requires in_range { All (λ m. m < length order.now) negations.now }
    ensures { IfOk result (λ b. b ≡ first_break (record { order = order.now; negations = negations.now })) }
{
    let bounded = Bounded::of(alloc, order, negations)?;
    match bounded.first_law() {
        Some((law, tuple)) => Ok(Some(Break {
            law,
            elements: tuple.elements(alloc)?,
        })),
        None => Ok(None),
    }
}

impl<'a> Bounded<'a> {
    fn first_law(&self) -> Option<(Law, Tuple)>
        ensures { option_map break_of result ≡ first_break (lattice_of self.now) }
    {
        for law in LAWS {
            if let Some(tuple) = self.first_tuple(law) {
                return Some((law, tuple));
            }
        }
        None
    }

    #[tactic(auto, unfolding(crate::specs::Breaks::first_tuple))]
    fn first_tuple(&self, law: Law) -> Option<Tuple>
        ensures { option_map elements_of result ≡ first_tuple (lattice_of self.now) law }
    {
        match law {
            Law::Involution => self.first_one(),
            Law::Distributive => self.first_three(),
            Law::Antisymmetry | Law::Meet | Law::Join | Law::Antitone => self.first_two(law),
        }
    }

    fn first_one(&self) -> Option<Tuple>
        ensures { option_map elements_of result ≡ find (breaks (lattice_of self.now) Law.Involution) (tuples (size (lattice_of self.now)) 1) }
    {
        let a = self.first_unrestored()?;
        Some(Tuple::One(a))
    }

    fn first_two(&self, law: Law) -> Option<Tuple>
        ensures { option_map elements_of result ≡ find (breaks (lattice_of self.now) law) (tuples (size (lattice_of self.now)) 2) }
    {
        for a in 0..self.size() {
            if let Some(b) = self.second(law, a) {
                return Some(Tuple::Two(a, b));
            }
        }
        None
    }

    fn first_three(&self) -> Option<Tuple>
        ensures { option_map elements_of result ≡ find (breaks (lattice_of self.now) Law.Distributive) (tuples (size (lattice_of self.now)) 3) }
    {
        for a in 0..self.size() {
            if let Some((b, c)) = self.second_and_third(a) {
                return Some(Tuple::Three(a, b, c));
            }
        }
        None
    }

    fn second_and_third(&self, a: u8) -> Option<(u8, u8)>
        requires { a < size (lattice_of self.now) }
        ensures { option_map pair_of result ≡ find (λ t. breaks (lattice_of self.now) Law.Distributive (a ∷ t)) (tuples (size (lattice_of self.now)) 2) }
    {
        for b in 0..self.size() {
            if let Some(c) = self.third(a, b) {
                return Some((b, c));
            }
        }
        None
    }

    fn second(&self, law: Law, a: u8) -> Option<u8>
        requires { a < size (lattice_of self.now) }
        ensures { result
            ≡ find (λ b. breaks (lattice_of self.now) law (a ∷ b ∷ [])) (range_with_len 0 (size (lattice_of self.now))) }
    {
        (0..self.size()).find(|b| self.breaks_two(law, a, *b))
    }

    fn third(&self, a: u8, b: u8) -> Option<u8>
        requires a_in { a < size (lattice_of self.now) }
        requires b_in { b < size (lattice_of self.now) }
        ensures { result
            ≡ find (λ c. breaks (lattice_of self.now) Law.Distributive (a ∷ b ∷ c ∷ [])) (range_with_len 0 (size (lattice_of self.now))) }
    {
        (0..self.size()).find(|c| self.breaks_three(a, b, *c))
    }

    fn first_unrestored(&self) -> Option<u8>
        ensures { result
            ≡ find (λ a. breaks (lattice_of self.now) Law.Involution (a ∷ [])) (range_with_len 0 (size (lattice_of self.now))) }
    {
        (0..self.size()).find(|a| self.breaks_one(*a))
    }
}

/// Well-shaped data of a reflexive and transitive order that break no law are lawful, and lawful data break none.
pub fn lawful_is_without_break()
    ensures lawful { LawfulWithoutBreak }
    ensures unbroken { LawfulIsUnbroken }
{}
