ghost use Rattle.xc_product.specs.Laws.{LawfulPartsHaveHeights};

/// Lawful lattices have heights, one each.
pub fn lawful_parts_have_heights()
    ensures { LawfulPartsHaveHeights }
{}
