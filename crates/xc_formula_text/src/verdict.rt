//! What a formula file says, as laws carried by a function with an empty body.
ghost use Rattle.xc_formula_text.specs.Laws.{TablesAreUnique, FaultsAreUnique, AcceptedHasNoFault, EachIsJudged};

/// A formula file is accepted and says one list of tables, or it has one first fault.
pub fn files_have_one_reading()
    ensures tables { TablesAreUnique }
    ensures faults { FaultsAreUnique }
    ensures never_both { AcceptedHasNoFault }
    ensures judged { EachIsJudged }
{}
