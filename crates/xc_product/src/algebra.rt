ghost use Rattle.std.specs.Prelude.{◌≡◌};
ghost use Rattle.xc_product.specs.Lawful.{lawful_parts, lawful_product};

use crate::bounds::{Bound, with_digit};
use crate::product::Product;
use xc_alg::Algebra;

impl Algebra for Product {
    ghost use Rattle.xc_product.specs.Products.{parts_of};

    ghost parts = { parts_of };

    fn size(&self) -> u16 {
        self.size
    }

    fn meet(&self, a: u16, b: u16) -> u16 {
        self.bound_of_codes(Bound::Meet, a, b)
    }

    fn join(&self, a: u16, b: u16) -> u16 {
        self.bound_of_codes(Bound::Join, a, b)
    }

    fn neg(&self, a: u16) -> u16 {
        let mut code = a;
        let mut negated = 0;
        for part in 0..self.tables.len() {
            let split = self.split(part, code);
            let digit = self.tables.get(part).neg(split.digit);
            negated = with_digit(negated, digit, self.weights[part]);
            code = split.rest;
        }
        negated
    }

    fn le(&self, a: u16, b: u16) -> bool {
        let mut left = a;
        let mut right = b;
        for part in 0..self.tables.len() {
            let first = self.split(part, left);
            let second = self.split(part, right);
            if !self.tables.get(part).le(first.digit, second.digit) {
                return false;
            }
            left = first.rest;
            right = second.rest;
        }
        true
    }

    fn bottom(&self) -> u16 {
        self.bottom
    }

    fn top(&self) -> u16 {
        self.top
    }

    ghost lawful = { λ p. lawful_parts p.tables };

    ghost laws = { λ p. lawful_product p.tables };

    ghost limited = { λ p. p.holds.limited };
}
