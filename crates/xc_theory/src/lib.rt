//! What the orders, bounds, lattices and chains are that all crates speak of.
//!
//! The definitions stand in `specs/`. Each function here has an empty body: its contract is a law of the definitions.
#![tactic(auto)]

ghost use Rattle.xc_theory.specs.Laws.{DigitsAreInRange, CodesAreInRange, DigitsOfCodes, CodesOfDigits};
ghost use Rattle.xc_theory.specs.Laws.{MeetsAreFound, JoinsAreFound, NoOtherMeets, NoOtherJoins};
ghost use Rattle.xc_theory.specs.Laws.{MeetsAreUnique, JoinsAreUnique, HeightsAreUnique};
ghost use Rattle.xc_theory.specs.Laws.{ReachingIsReflexive, ReachingIsTransitive};
ghost use Rattle.xc_theory.specs.Laws.{SpannedIsReflexive, SpannedIsTransitive, SpannedIsUnique};

/// The first bound that the tests find is a bound, and where they find none there is none.
pub fn first_bounds_are_bounds()
    ensures meets { MeetsAreFound }
    ensures joins { JoinsAreFound }
    ensures no_other_meets { NoOtherMeets }
    ensures no_other_joins { NoOtherJoins }
{}

/// Elements have at most one greatest lower and one least upper bound in an antisymmetric order.
pub fn bounds_are_unique()
    ensures meets { MeetsAreUnique }
    ensures joins { JoinsAreUnique }
{}

/// Reaching by steps is reflexive and transitive.
pub fn reaching_is_an_order()
    ensures reflexive { ReachingIsReflexive }
    ensures transitive { ReachingIsTransitive }
{}

/// The table that a relation spans is reflexive and transitive, and it is the only one.
pub fn spanned_tables_are_orders()
    ensures reflexive { SpannedIsReflexive }
    ensures transitive { SpannedIsTransitive }
    ensures unique { SpannedIsUnique }
{}

/// An order has one height.
pub fn heights_are_unique()
    ensures { HeightsAreUnique }
{}

/// A code below the total stands for one row of digits, and a row of digits in range for one such code.
pub fn codes_and_digits()
    ensures digits_in_range { DigitsAreInRange }
    ensures codes_in_range { CodesAreInRange }
    ensures digits_of_codes { DigitsOfCodes }
    ensures codes_of_digits { CodesOfDigits }
{}
