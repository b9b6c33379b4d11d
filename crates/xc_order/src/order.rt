ghost use Rattle.std.specs.Prelude.{◌≡◌, ◌<◌, ◌≤◌, ◌||◌, not, [], ◌∷◌, length, IfOk};
ghost use Rattle.std.specs.List.{list_all};
ghost use Rattle.xc_theory.specs.Orders.{is_below, elements, IsSpannedBy};
ghost use Rattle.xc_theory.specs.Bounds.{is_lower_bound, is_upper_bound, is_meet, is_join, first_meet, first_join};
ghost use Rattle.xc_order.specs.Pairs.{IsListed, AreBelow};
ghost use Rattle.xc_order.specs.Order.{IsOrder};

use crate::closure::{own_rows, span};
use std::alloc::Global;
use std::marker::Model;
use xc_base::{List, Memory};

/// `low` is below `high`.
#[derive(Clone, Copy, Debug, PartialEq, Eq)]
pub struct Pair {
    pub low: u8,
    pub high: u8,
}

/// A reflexive and transitive relation of the elements 0 to n - 1, where n is at most 64.
///
/// Contracts see it as its table of truth values: a row for each element, which says what it is below.
#[derive(Debug, Drop)]
pub struct Order {
    n: u8,
    rows: Vec<[bool; 64]>,
}

impl Model for Order {
    ghost use Rattle.std.specs.Prelude.{Bool, List as Items};
    ghost use Rattle.xc_order.specs.Order.{table_of, HoldsOrder};

    ghost Value = { Items (Items Bool) };

    ghost view = { λ o. table_of o.n o.rows.items };

    ghost invariant = { λ o. HoldsOrder o.n o.rows.items };
}

impl Order {
    /// The order of n elements that the pairs span: an element is below another one where pairs lead from it to that one.
    ///
    /// It fails where there is no memory.
    pub fn of(alloc: Global, n: u8, pairs: &List<Pair>) -> Result<Order, Memory>
        requires positive { 0 < n }
        requires limit { n ≤ 64 }
        requires pairs { AreBelow n pairs.now }
        ensures { IfOk result (λ order. IsSpannedBy n (IsListed pairs.now) order) }
    {
        let mut rows = own_rows(alloc, n)?;
        span(&mut rows, n, pairs.as_slice());
        Ok(Order { n, rows })
    }

    /// An equal order with memory of its own.
    pub fn copy(&self, alloc: Global) -> Result<Order, Memory>
        ensures { IfOk result (λ order. order ≡ self.now) }
    {
        Ok(Order {
            n: self.n,
            rows: Vec::from_slice(alloc, self.rows.as_slice())?,
        })
    }

    /// How many elements there are.
    pub fn size(&self) -> u8
        ensures size { result ≡ length self.now }
        ensures order { IsOrder result self.now }
    {
        self.n
    }

    /// Whether an element is below another one, or is that one.
    pub fn le(&self, a: u8, b: u8) -> bool
        requires a_in { a < length self.now }
        requires b_in { b < length self.now }
        ensures { result ≡ is_below self.now a b }
    {
        self.rows[a as usize][b as usize]
    }

    /// The greatest of the elements that are below both, where there is one.
    #[tactic(auto, unfolding(xc_theory::specs::Bounds::first_meet))]
    pub fn glb(&self, a: u8, b: u8) -> Option<u8>
        requires a_in { a < length self.now }
        requires b_in { b < length self.now }
        ensures { result ≡ first_meet self.now (a ∷ b ∷ []) }
    {
        (0..self.size()).find(|m| self.is_glb(a, b, *m))
    }

    /// The least of the elements that are above both, where there is one.
    #[tactic(auto, unfolding(xc_theory::specs::Bounds::first_join))]
    pub fn lub(&self, a: u8, b: u8) -> Option<u8>
        requires a_in { a < length self.now }
        requires b_in { b < length self.now }
        ensures { result ≡ first_join self.now (a ∷ b ∷ []) }
    {
        (0..self.size()).find(|m| self.is_lub(a, b, *m))
    }

    /// The element that is below all, where there is one: the least upper bound of none.
    #[tactic(auto, unfolding(xc_theory::specs::Bounds::first_join))]
    pub fn first_below_all(&self) -> Option<u8>
        ensures { result ≡ first_join self.now [] }
    {
        (0..self.size()).find(|m| self.is_below_all(*m))
    }

    /// The element that is above all, where there is one: the greatest lower bound of none.
    #[tactic(auto, unfolding(xc_theory::specs::Bounds::first_meet))]
    pub fn first_above_all(&self) -> Option<u8>
        ensures { result ≡ first_meet self.now [] }
    {
        (0..self.size()).find(|m| self.is_above_all(*m))
    }

    fn is_below_both(&self, m: u8, a: u8, b: u8) -> bool
        requires a_in { a < length self.now }
        requires b_in { b < length self.now }
        requires m_in { m < length self.now }
        ensures { result ≡ is_lower_bound self.now (a ∷ b ∷ []) m }
    {
        self.le(m, a) && self.le(m, b)
    }

    fn is_above_both(&self, m: u8, a: u8, b: u8) -> bool
        requires a_in { a < length self.now }
        requires b_in { b < length self.now }
        requires m_in { m < length self.now }
        ensures { result ≡ is_upper_bound self.now (a ∷ b ∷ []) m }
    {
        self.le(a, m) && self.le(b, m)
    }

    fn is_glb(&self, a: u8, b: u8, m: u8) -> bool
        requires a_in { a < length self.now }
        requires b_in { b < length self.now }
        requires m_in { m < length self.now }
        ensures { result ≡ is_meet self.now (a ∷ b ∷ []) m }
    {
        self.is_below_both(m, a, b) && self.is_above_their_bounds(m, a, b)
    }

    fn is_above_their_bounds(&self, m: u8, a: u8, b: u8) -> bool
        requires a_in { a < length self.now }
        requires b_in { b < length self.now }
        requires m_in { m < length self.now }
        ensures { result
            ≡ list_all (λ l. not (is_lower_bound self.now (a ∷ b ∷ []) l) || is_below self.now l m) (elements self.now) }
    {
        (0..self.size()).all(|l| !self.is_below_both(l, a, b) || self.le(l, m))
    }

    fn is_lub(&self, a: u8, b: u8, m: u8) -> bool
        requires a_in { a < length self.now }
        requires b_in { b < length self.now }
        requires m_in { m < length self.now }
        ensures { result ≡ is_join self.now (a ∷ b ∷ []) m }
    {
        self.is_above_both(m, a, b) && self.is_below_their_bounds(m, a, b)
    }

    fn is_below_their_bounds(&self, m: u8, a: u8, b: u8) -> bool
        requires a_in { a < length self.now }
        requires b_in { b < length self.now }
        requires m_in { m < length self.now }
        ensures { result
            ≡ list_all (λ u. not (is_upper_bound self.now (a ∷ b ∷ []) u) || is_below self.now m u) (elements self.now) }
    {
        (0..self.size()).all(|u| !self.is_above_both(u, a, b) || self.le(m, u))
    }

    fn is_below_all(&self, m: u8) -> bool
        requires { m < length self.now }
        ensures { result ≡ is_join self.now [] m }
    {
        (0..self.size()).all(|u| self.le(m, u))
    }

    fn is_above_all(&self, m: u8) -> bool
        requires { m < length self.now }
        ensures { result ≡ is_meet self.now [] m }
    {
        (0..self.size()).all(|l| self.le(l, m))
    }
}
