//! Heights of algebras.
ghost use Rattle.xc_fixpoint.specs.Laws.{HeightsAreUnique, HeightsOfProducts};

/// An algebra has one height, and that of a product is the sum of the heights of its parts.
pub fn heights_of_products()
    ensures unique { HeightsAreUnique }
    ensures sum { HeightsOfProducts }
{}
