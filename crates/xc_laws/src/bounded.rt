//! An order and its negations with tables of their bounds, from which the laws are judged.

ghost use Rattle.std.specs.Prelude.{◌≡◌, ◌<◌, ℕ, length, slice_index, slice_index_or, IfOk, None, [], ◌∷◌, All};
ghost use Rattle.xc_theory.specs.Bounds.{first_meet, first_join, meet_of, join_of};
ghost use Rattle.xc_order.specs.Order.{IsOrder};
ghost use Rattle.xc_laws.specs.Tables.{HoldsMeets, HoldsJoins};

use crate::law::Law;
use std::alloc::Global;
use xc_base::Memory;
use xc_order::Order;

/// An order and negations, with the bounds of each two elements.
#[derive(Debug, Drop)]
pub(crate) struct Bounded<'a> {
    order: &'a Order,
    n: u8,
    negations: &'a [u8],
    meets: Vec<[Option<u8>; 64]>,
    joins: Vec<[Option<u8>; 64]>,
    ghost is_order: { IsOrder n order.now },
    ghost one_each: { length negations.now ≡ length order.now },
    ghost in_range: { (a : ℕ) → a < length order.now → slice_index negations.now a < length order.now },
    ghost meets_are: { HoldsMeets order.now meets.items },
    ghost joins_are: { HoldsJoins order.now joins.items },
}

impl<'a> Bounded<'a> {
    ghost use Rattle.std.specs.Prelude.{◌≡◌, ◌<◌, ℕ, length, IfOk, [], ◌∷◌, All};
    ghost use Rattle.xc_theory.specs.Lattices.{size, meet, join, negation};
    ghost use Rattle.xc_laws.specs.Breaks.{breaks};
    ghost use Rattle.xc_laws.specs.Bounded.{lattice_of};

    /// An order and the negation of each element, with tables of all bounds.
    pub(crate) fn of(
        alloc: Global,
        order: &'a Order,
        negations: &'a [u8],
    ) -> Result<Bounded<'a>, Memory>
        requires one_each { length negations.now ≡ length order.now }
        requires in_range { All (λ m. m < length order.now) negations.now }
        ensures order { IfOk result (λ l. l.order.now ≡ order.now) }
        ensures negations { IfOk result (λ l. l.negations.now ≡ negations.now) }
    {
        let meets = meets_of(alloc, order)?;
        let joins = joins_of(alloc, order)?;
        Ok(Bounded {
            order,
            n: order.size(),
            negations,
            meets,
            joins,
        })
    }

    /// How many elements there are.
    pub(crate) fn size(&self) -> u8
        ensures { result ≡ size (lattice_of self.now) }
    {
        self.n
    }

    fn meet(&self, a: u8, b: u8) -> u8
        requires a_in { a < size (lattice_of self.now) }
        requires b_in { b < size (lattice_of self.now) }
        ensures value { result ≡ meet (lattice_of self.now) a b }
        ensures in_range { result < size (lattice_of self.now) }
    {
        self.meets[a as usize][b as usize].unwrap_or(0)
    }

    fn join(&self, a: u8, b: u8) -> u8
        requires a_in { a < size (lattice_of self.now) }
        requires b_in { b < size (lattice_of self.now) }
        ensures value { result ≡ join (lattice_of self.now) a b }
        ensures in_range { result < size (lattice_of self.now) }
    {
        self.joins[a as usize][b as usize].unwrap_or(0)
    }

    fn negation(&self, a: u8) -> u8
        requires { a < size (lattice_of self.now) }
        ensures value { result ≡ negation (lattice_of self.now) a }
        ensures in_range { result < size (lattice_of self.now) }
    {
        self.negations[a as usize]
    }

    fn keeps_their_order(&self, a: u8, b: u8) -> bool
        requires a_in { a < size (lattice_of self.now) }
        requires b_in { b < size (lattice_of self.now) }
        ensures { result ≡ breaks (lattice_of self.now) Law.Antitone (a ∷ b ∷ []) }
    {
        self.order.le(a, b) && !self.order.le(self.negation(b), self.negation(a))
    }

    /// Whether two elements break a law.
    pub(crate) fn breaks_two(&self, law: Law, a: u8, b: u8) -> bool
        requires a_in { a < size (lattice_of self.now) }
        requires b_in { b < size (lattice_of self.now) }
        ensures { result ≡ breaks (lattice_of self.now) law (a ∷ b ∷ []) }
    {
        match law {
            Law::Antisymmetry => a != b && self.order.le(a, b) && self.order.le(b, a),
            Law::Meet => self.meets[a as usize][b as usize].is_none(),
            Law::Join => self.joins[a as usize][b as usize].is_none(),
            Law::Antitone => self.keeps_their_order(a, b),
            Law::Distributive | Law::Involution => false,
        }
    }

    /// Whether three elements break the distributive law.
    pub(crate) fn breaks_three(&self, a: u8, b: u8, c: u8) -> bool
        requires a_in { a < size (lattice_of self.now) }
        requires b_in { b < size (lattice_of self.now) }
        requires c_in { c < size (lattice_of self.now) }
        ensures { result ≡ breaks (lattice_of self.now) Law.Distributive (a ∷ b ∷ c ∷ []) }
    {
        self.meet(a, self.join(b, c)) != self.join(self.meet(a, b), self.meet(a, c))
    }

    /// Whether an element breaks the law of the involution.
    pub(crate) fn breaks_one(&self, a: u8) -> bool
        requires { a < size (lattice_of self.now) }
        ensures { result ≡ breaks (lattice_of self.now) Law.Involution (a ∷ []) }
    {
        self.negation(self.negation(a)) != a
    }
}

fn meets_with(order: &Order, a: u8) -> [Option<u8>; 64]
    requires { a < length order.now }
    ensures { (b : ℕ) → b < length order.now
        → slice_index_or result b None ≡ first_meet order.now (a ∷ b ∷ []) }
{
    let mut row = [None; 64];
    for b in 0..order.size() {
        row[b as usize] = order.glb(a, b);
    }
    row
}

fn joins_with(order: &Order, a: u8) -> [Option<u8>; 64]
    requires { a < length order.now }
    ensures { (b : ℕ) → b < length order.now
        → slice_index_or result b None ≡ first_join order.now (a ∷ b ∷ []) }
{
    let mut row = [None; 64];
    for b in 0..order.size() {
        row[b as usize] = order.lub(a, b);
    }
    row
}

fn meets_of(alloc: Global, order: &Order) -> Result<Vec<[Option<u8>; 64]>, Memory>
    ensures { IfOk result (λ rows. HoldsMeets order.now rows.items) }
{
    let mut rows = Vec::new(alloc);
    for a in 0..order.size() {
        rows.push(meets_with(order, a))?;
    }
    Ok(rows)
}

fn joins_of(alloc: Global, order: &Order) -> Result<Vec<[Option<u8>; 64]>, Memory>
    ensures { IfOk result (λ rows. HoldsJoins order.now rows.items) }
{
    let mut rows = Vec::new(alloc);
    for a in 0..order.size() {
        rows.push(joins_with(order, a))?;
    }
    Ok(rows)
}
