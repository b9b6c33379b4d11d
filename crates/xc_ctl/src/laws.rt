//! Laws of the definitions in `specs/`, carried by a function with an empty body.
ghost use Rattle.xc_ctl.specs.Laws.{TablesStandForTrees};
ghost use Rattle.xc_ctl.specs.Laws.{RoundsExist, RoundsAreUnique, RoundsAreFew};
ghost use Rattle.xc_ctl.specs.Laws.{DenotationsExist, DenotationsAreUnique, DenotationsAreInRange, FormulasDenote, FormulasDenoteOnce};

/// On every frame the nodes of a table that is in range denote functions from the states to the elements, which are the only ones
/// at the states.
pub fn formulas_have_one_denotation()
    ensures exist { DenotationsExist }
    ensures unique { DenotationsAreUnique }
    ensures in_range { DenotationsAreInRange }
    ensures formula { FormulasDenote }
    ensures formula_once { FormulasDenoteOnce }
{}

/// There is a table of rounds for every frame and every table of nodes that is in range there, and no two tell different things. The
/// rounds of a node are no more than the states, each counted with all steps of a longest chain.
#[tactic(auto, using(crate::proofs::RoundTables::rounds_exist, crate::proofs::RoundTables::rounds_are_unique, crate::proofs::RoundTables::rounds_are_few))]
pub fn formulas_have_one_table()
    ensures exist { RoundsExist }
    ensures unique { RoundsAreUnique }
    ensures few { RoundsAreFew }
{}

/// The table of a formula that is written out stands for that formula.
#[tactic(auto, using(crate::proofs::TableTrees::table_of_tree))]
pub fn tables_stand_for_trees()
    ensures { TablesStandForTrees }
{}
