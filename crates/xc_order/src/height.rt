//! The height of an order, and whether it is antisymmetric.

ghost use Rattle.std.specs.Prelude.{◌≡◌, ◌<◌, ◌≤◌, ◌↔◌, ℕ, IsTrue, length, slice_index};
ghost use Rattle.std.specs.List.{list_all};
ghost use Rattle.xc_theory.specs.Orders.{elements, IsAntisymmetric};
ghost use Rattle.xc_theory.specs.Chains.{IsHeight};
ghost use Rattle.xc_order.specs.Heights.{is_over, level_over, greatest_level, is_alone};

use crate::order::Order;

impl Order {
    /// Whether no two different elements are each below the other.
    pub fn antisymmetric(&self) -> bool
        ensures { IsTrue result ↔ IsAntisymmetric self.now }
    {
        self.each_is_alone()
    }

    /// The number of steps of a longest chain.
    pub fn height(&self) -> u32
        requires { IsAntisymmetric self.now }
        ensures { IsHeight self.now result }
    {
        let mut levels = [0; 64];
        for _round in 0..self.size() {
            levels = self.raised(&levels);
        }
        u32::from(self.greatest(&levels))
    }

    fn each_is_alone(&self) -> bool
        ensures { result ≡ list_all (is_alone self.now) (elements self.now) }
    {
        (0..self.size()).all(|a| self.is_alone(a))
    }

    fn is_alone(&self, a: u8) -> bool
        requires { a < length self.now }
        ensures { result ≡ is_alone self.now a }
    {
        (0..self.size()).all(|b| a == b || !(self.le(a, b) && self.le(b, a)))
    }

    fn is_over(&self, a: u8, b: u8) -> bool
        requires a_in { a < length self.now }
        requires b_in { b < length self.now }
        ensures { result ≡ is_over self.now a b }
    {
        a != b && self.le(a, b)
    }

    // For each element, one more than the greatest level of the elements over it.
    fn raised(&self, levels: &[u8; 64]) -> [u8; 64]
        requires { (b : ℕ) → b < length self.now → slice_index levels.now b ≤ 64 }
        ensures { (a : ℕ) → a < length self.now
            → slice_index result a ≡ level_over (is_over self.now a) (slice_index levels.now) (length self.now) }
    {
        let mut raised = [0; 64];
        for a in 0..self.size() {
            raised[a as usize] = self.level_over(levels, a);
        }
        raised
    }

    fn level_over(&self, levels: &[u8; 64], a: u8) -> u8
        requires a_in { a < length self.now }
        requires small { (b : ℕ) → b < length self.now → slice_index levels.now b ≤ 64 }
        ensures { result ≡ level_over (is_over self.now a) (slice_index levels.now) (length self.now) }
    {
        let mut level = 0;
        for b in 0..self.size() {
            if self.is_over(a, b) {
                level = level.max(levels[b as usize] + 1);
            }
        }
        level
    }

    fn greatest(&self, levels: &[u8; 64]) -> u8
        ensures { result ≡ greatest_level (slice_index levels.now) (length self.now) }
    {
        let mut level = 0;
        for a in 0..self.size() {
            level = level.max(levels[a as usize]);
        }
        level
    }
}
