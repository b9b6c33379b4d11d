//! The trait of algebras, and what generic code makes of it.
ghost use Rattle.std.specs.Prelude.{◌≡◌, ◌<◌, ◌≤◌, ℕ, List};
ghost use Rattle.xc_theory.specs.Lattices.{LatticeData};
ghost use Rattle.xc_alg.specs.Operations.{IsAlgebra};
ghost use Rattle.xc_alg.specs.Products.{AreLawful, product};

/// An algebra of elements that stand as codes below its size.
///
/// Its meaning is a list of parts, each a lawful lattice. A code is one digit for each part, the first part most
/// significant, and the operations go digit by digit. So all laws of a quasi-Boolean algebra hold. No call takes memory.
pub trait Algebra {
    ghost parts: { Self → List LatticeData };

    /// The number of elements.
    fn size(&self) -> u16
        ensures { result ≡ (product (parts self.now)).size };

    /// The greatest element that is below both.
    fn meet(&self, a: u16, b: u16) -> u16
        requires left { a < (product (parts self.now)).size }
        requires right { b < (product (parts self.now)).size }
        ensures { result ≡ (product (parts self.now)).meet a b };

    /// The least element that both are below.
    fn join(&self, a: u16, b: u16) -> u16
        requires left { a < (product (parts self.now)).size }
        requires right { b < (product (parts self.now)).size }
        ensures { result ≡ (product (parts self.now)).join a b };

    /// The negation of an element.
    fn neg(&self, a: u16) -> u16
        requires { a < (product (parts self.now)).size }
        ensures { result ≡ (product (parts self.now)).negation a };

    /// Whether the first element is below the second, or is the second.
    fn le(&self, a: u16, b: u16) -> bool
        requires left { a < (product (parts self.now)).size }
        requires right { b < (product (parts self.now)).size }
        ensures { result ≡ (product (parts self.now)).below a b };

    /// The element that is below all.
    fn bottom(&self) -> u16
        ensures { result ≡ (product (parts self.now)).bottom };

    /// The element that all are below.
    fn top(&self) -> u16
        ensures { result ≡ (product (parts self.now)).top };

    ghost lawful: { (x : Self) → AreLawful (parts x) };

    ghost laws: { (x : Self) → IsAlgebra (product (parts x)) };

    ghost limited: { (x : Self) → (product (parts x)).size ≤ 4096 };
}

/// Every algebra has the laws of a quasi-Boolean algebra, and at most 4,096 elements.
pub fn laws_hold<A: Algebra>()
    ensures lawful { (x : A) → AreLawful (A.parts x) }
    ensures laws { (x : A) → IsAlgebra (product (A.parts x)) }
    ensures limited { (x : A) → (product (A.parts x)).size ≤ 4096 }
{}

/// The implication `a -> b`, which is `(not a) or b`; its negation is `a and (not b)`.
pub fn implies<A: Algebra>(algebra: &A, a: u16, b: u16) -> u16
    requires left { a < (product (A.parts algebra.now)).size }
    requires right { b < (product (A.parts algebra.now)).size }
    ensures value { let o = product (A.parts algebra.now) in result ≡ o.join (o.negation a) b }
    ensures within { result < (product (A.parts algebra.now)).size }
    ensures negated { let o = product (A.parts algebra.now) in o.negation result ≡ o.meet a (o.negation b) }
{
    algebra.join(algebra.neg(a), b)
}
