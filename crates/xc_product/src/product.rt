ghost use Rattle.std.specs.Prelude.{◌≡◌, ◌<◌, ◌≤◌, ◌/◌, ◌%◌, ℕ, List as Items, length, map, drop, sum, slice_index, slice_set, IfOk, IfErr};
ghost use Rattle.xc_theory.specs.Lattices.{bottom};
ghost use Rattle.xc_theory.specs.Codes.{total, digits, code_of, AreDigits};
ghost use Rattle.xc_alg.specs.Products.{product, sizes};
ghost use Rattle.xc_product.specs.Bounds.{bound_of};
ghost use Rattle.xc_product.specs.Parts.{lattices, rooms, weight, HoldsProduct};
ghost use Rattle.xc_product.specs.Heights.{AreHeights, HaveHeights, IsSumOfHeights};

use crate::bounds::{Bound, bound_in_part, code_of_none, with_digit};
use crate::fault::ProductFault;
use crate::heights::sum_of_heights;
use crate::weights::{count, weights};
use std::alloc::Global;
use xc_alg::{Algebra, AnyTable};
use xc_base::{List, Memory};

/// The product of one to eight lattices, with at most 4,096 elements.
///
/// An element is the code of one digit for each part, the first part most significant.
#[derive(Drop)]
pub struct Product {
    pub(crate) tables: List<AnyTable>,
    // For each part, how many codes the parts after it have.
    pub(crate) weights: [u16; 8],
    pub(crate) size: u16,
    pub(crate) bottom: u16,
    pub(crate) top: u16,
    height: u32,
    ghost holds: { HoldsProduct tables weights size bottom top },
    ghost summed: { ∥ IsSumOfHeights (lattices tables) height ∥₁ },
}

/// A code's digit in a part, and the code that it leaves for the parts after that.
#[derive(Clone, Copy)]
pub(crate) struct Split {
    pub(crate) digit: u16,
    pub(crate) rest: u16,
}

impl Product {
    ghost use Rattle.xc_product.specs.Products.{parts_of, rooms_of};
    ghost use Rattle.xc_product.specs.Faults.{IsFaultOf};

    /// The product of some parts, in order. Where their sizes multiply to more than 4,096 it fails with that number, and
    /// else it may fail for want of memory.
    pub fn of(alloc: Global, parts: List<AnyTable>) -> Result<Product, ProductFault>
        requires several { 1 ≤ length parts }
        requires few { length parts ≤ 8 }
        ensures ok { IfOk result (λ p. (parts_of p ≡ lattices parts) × (total (sizes (lattices parts)) ≤ 4096)) }
        ensures rooms { IfOk result (λ p. rooms_of p ≡ rooms parts) }
        ensures err { IfErr result (IsFaultOf (lattices parts)) }
    {
        let tables = parts.as_slice();
        let size = count(tables);
        if size > 4096 {
            return Err(ProductFault::TooLarge { size });
        }
        let height = sum_of_heights(alloc, tables)?;
        let size = size as u16;
        let weights = weights(tables, size);
        let bottom = code_of_none(tables, &weights, Bound::Join);
        let top = code_of_none(tables, &weights, Bound::Meet);
        Ok(Product {
            tables: parts,
            weights,
            size,
            bottom,
            top,
            height,
        })
    }

    /// A product of the same parts, in tables of the same room, with memory of its own.
    pub fn copy(&self, alloc: Global) -> Result<Product, Memory>
        ensures parts { IfOk result (λ p. parts_of p ≡ parts_of self.now) }
        ensures rooms { IfOk result (λ p. rooms_of p ≡ rooms_of self.now) }
    {
        let tables = copy_tables(alloc, self.tables.as_slice())?;
        Ok(Product {
            tables,
            weights: self.weights,
            size: self.size,
            bottom: self.bottom,
            top: self.top,
            height: self.height,
        })
    }

    /// How many parts there are: from 1 to 8.
    pub fn parts(&self) -> u8
        ensures count { result ≡ length (parts_of self.now) }
        ensures several { 1 ≤ result }
        ensures few { result ≤ 8 }
    {
        self.tables.len() as u8
    }

    /// The digit of a code in a part.
    pub fn digit(&self, code: u16, part: u8) -> u8
        requires code { code < (product (parts_of self.now)).size }
        requires part { part < length (parts_of self.now) }
        ensures value { result ≡ slice_index (digits (sizes (parts_of self.now)) code) part }
        ensures within { result < slice_index (sizes (parts_of self.now)) part }
    {
        let mut rest = code;
        for earlier in 0..part as usize {
            rest = self.split(earlier, rest).rest;
        }
        self.split(part as usize, rest).digit as u8
    }

    /// The code of an element of one part, with the bottoms of the other parts.
    pub fn embed(&self, part: u8, value: u8) -> u16
        requires part { part < length (parts_of self.now) }
        requires value { value < slice_index (sizes (parts_of self.now)) part }
        ensures value { result ≡ code_of (sizes (parts_of self.now)) (slice_set (map bottom (parts_of self.now)) part value) }
        ensures within { result < (product (parts_of self.now)).size }
    {
        let place = part as usize;
        let bottom = self.tables.get(place).bottom();
        let weight = self.weights[place];
        self.bottom - bottom * weight + value as u16 * weight
    }

    /// The code of one digit for each part.
    pub fn code(&self, digits: &[u8]) -> u16
        requires { AreDigits (sizes (parts_of self.now)) digits.now }
        ensures value { result ≡ code_of (sizes (parts_of self.now)) digits.now }
        ensures within { result < (product (parts_of self.now)).size }
    {
        let mut code = 0;
        for part in 0..self.tables.len() {
            code = with_digit(code, digits[part] as u16, self.weights[part]);
        }
        code
    }

    /// The sum of the heights of the parts.
    pub fn height(&self) -> u32
        ensures sum { (heights : Items ℕ) → AreHeights (parts_of self.now) heights → result ≡ sum heights }
        ensures exist { HaveHeights (parts_of self.now) }
    {
        self.height
    }

    /// The bound of two codes, digit by digit.
    pub(crate) fn bound_of_codes(&self, which: Bound, a: u16, b: u16) -> u16
        requires left { a < (product (parts_of self.now)).size }
        requires right { b < (product (parts_of self.now)).size }
        ensures { result ≡ bound_of which (product (parts_of self.now)) a b }
    {
        let mut left = a;
        let mut right = b;
        let mut code = 0;
        for part in 0..self.tables.len() {
            let first = self.split(part, left);
            let second = self.split(part, right);
            let digit = bound_in_part(self.tables.get(part), which, first.digit, second.digit);
            code = with_digit(code, digit, self.weights[part]);
            left = first.rest;
            right = second.rest;
        }
        code
    }

    /// The digit of a code in a part, where the code has no digits for the parts before it, and the rest.
    pub(crate) fn split(&self, part: usize, code: u16) -> Split
        requires part { part < length self.now.tables }
        requires code { code < (product (lattices (drop part self.now.tables))).size }
        ensures digit { result.digit ≡ code / weight self.now.tables part }
        ensures rest { result.rest ≡ code % weight self.now.tables part }
        ensures within { result.rest < weight self.now.tables part }
    {
        let weight = self.weights[part];
        Split {
            digit: code / weight,
            rest: code % weight,
        }
    }
}

fn copy_tables(alloc: Global, tables: &[AnyTable]) -> Result<List<AnyTable>, Memory>
    ensures same { IfOk result (λ copies. lattices copies ≡ lattices tables.now) }
    ensures rooms { IfOk result (λ copies. rooms copies ≡ rooms tables.now) }
{
    let mut copies = List::new(alloc);
    for table in tables {
        copies.push(table.copy(alloc)?)?;
    }
    Ok(copies)
}
