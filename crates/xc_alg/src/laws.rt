//! Laws of the definitions in `specs/`, each carried by a function with an empty body.
ghost use Rattle.xc_alg.specs.Laws.{MeetCommutes, JoinCommutes, MeetIsAssociative, JoinIsAssociative, MeetIsIdempotent, JoinIsIdempotent, MeetAbsorbs, JoinAbsorbs, BelowIsMeet, BelowIsJoin};
ghost use Rattle.xc_alg.specs.Laws.{MeetIsMonotone, JoinIsMonotone, MeetWithTop, JoinWithBottom, MeetWithBottom, JoinWithTop};
ghost use Rattle.xc_alg.specs.Laws.{MeetDistributes, JoinDistributes};
ghost use Rattle.xc_alg.specs.Laws.{NegationIsInvolution, NegationOfMeet, NegationOfJoin, NegationOfBottom, NegationOfTop};
ghost use Rattle.xc_alg.specs.Laws.{MetAreMeets, JoinedAreJoins, MeetsAreUnique, JoinsAreUnique};
ghost use Rattle.xc_alg.specs.Laws.{ProductsAreAlgebras, DigitwiseMeets, DigitwiseJoins, DigitsOfMeets, DigitsOfJoins, DigitsOfNegations};

/// In every algebra meet and join commute, associate, are idempotent and absorb each other, and say what is below what.
pub fn lattice_laws()
    ensures meet_commutes { MeetCommutes }
    ensures join_commutes { JoinCommutes }
    ensures meet_is_associative { MeetIsAssociative }
    ensures join_is_associative { JoinIsAssociative }
    ensures meet_is_idempotent { MeetIsIdempotent }
    ensures join_is_idempotent { JoinIsIdempotent }
    ensures meet_absorbs { MeetAbsorbs }
    ensures join_absorbs { JoinAbsorbs }
    ensures below_is_meet { BelowIsMeet }
    ensures below_is_join { BelowIsJoin }
{}

/// In every algebra meet and join are monotone, and the bottom and the top are their units.
pub fn monotone_laws()
    ensures meet_is_monotone { MeetIsMonotone }
    ensures join_is_monotone { JoinIsMonotone }
    ensures meet_with_top { MeetWithTop }
    ensures join_with_bottom { JoinWithBottom }
    ensures meet_with_bottom { MeetWithBottom }
    ensures join_with_top { JoinWithTop }
{}

/// In every algebra meet and join distribute over each other.
pub fn distributive_laws()
    ensures meet_distributes { MeetDistributes }
    ensures join_distributes { JoinDistributes }
{}

/// In every algebra the negation is an involution that turns meets into joins, and joins into meets.
pub fn negation_laws()
    ensures involution { NegationIsInvolution }
    ensures of_meet { NegationOfMeet }
    ensures of_join { NegationOfJoin }
    ensures of_bottom { NegationOfBottom }
    ensures of_top { NegationOfTop }
{}

/// In every algebra the codes of a list, met or joined one after the other, give the one bound of the list.
pub fn bounds_of_lists()
    ensures met { MetAreMeets }
    ensures joined { JoinedAreJoins }
    ensures unique_meet { MeetsAreUnique }
    ensures unique_join { JoinsAreUnique }
{}

/// The product of lawful parts is an algebra, and the bound of a list of codes, digit by digit, is the bound of the list.
pub fn products_are_algebras()
    ensures laws { ProductsAreAlgebras }
    ensures meets { DigitwiseMeets }
    ensures joins { DigitwiseJoins }
    ensures digits_of_meets { DigitsOfMeets }
    ensures digits_of_joins { DigitsOfJoins }
    ensures digits_of_negations { DigitsOfNegations }
{}
