//! Laws of the definitions in `specs/`, each carried by a function with an empty body.
ghost use Rattle.xc_fixpoint.specs.Laws.{LeastExists, GreatestExists, LeastIsUnique, GreatestIsUnique, AgreeingIsExtremal};
ghost use Rattle.xc_fixpoint.specs.Laws.{LeastByInduction, GreatestByInduction};
ghost use Rattle.xc_fixpoint.specs.Laws.{LeastGrows, GreatestGrows};
ghost use Rattle.xc_fixpoint.specs.Laws.{IteratesRise, IteratesFall, IteratesSettle, IteratesSettleOnce};
ghost use Rattle.xc_fixpoint.specs.Laws.{SettledIsLeast, SettledIsGreatest, SettledStays};
ghost use Rattle.xc_fixpoint.specs.Laws.{UnsettledAreFew, IteratesSettleSoon};
ghost use Rattle.xc_fixpoint.specs.Laws.{ExtremalAsList, ListAsExtremal};

/// A monotone step has one least and one greatest fixpoint: no two differ at a state, and what agrees with it is it.
pub fn extremal_fixpoints()
    ensures least_exists { LeastExists }
    ensures greatest_exists { GreatestExists }
    ensures least_is_unique { LeastIsUnique }
    ensures greatest_is_unique { GreatestIsUnique }
    ensures agreeing { AgreeingIsExtremal }
{}

/// What a monotone step takes below itself is above the least fixpoint, and what it takes above itself below the greatest.
pub fn fixpoints_by_induction()
    ensures least { LeastByInduction }
    ensures greatest { GreatestByInduction }
{}

/// A larger step has larger fixpoints.
pub fn fixpoints_grow()
    ensures least { LeastGrows }
    ensures greatest { GreatestGrows }
{}

/// The iterates of a monotone step rise from the bottom and fall from the top, and settle at one number. One that agrees
/// with the next one is the least or the greatest fixpoint.
pub fn iterates_settle()
    ensures rise { IteratesRise }
    ensures fall { IteratesFall }
    ensures settle { IteratesSettle }
    ensures settle_once { IteratesSettleOnce }
    ensures least { SettledIsLeast }
    ensures greatest { SettledIsGreatest }
    ensures stay { SettledStays }
{}

/// They settle at a number that is at most that of the states, times the height of the algebra.
pub fn iterates_settle_soon()
    ensures unsettled { UnsettledAreFew }
    ensures settled { IteratesSettleSoon }
{}

/// A function is the least or the greatest fixpoint exactly where the list of its values is that among lists.
pub fn fixpoints_as_lists()
    ensures list { ExtremalAsList }
    ensures function { ListAsExtremal }
{}
