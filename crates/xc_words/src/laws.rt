ghost use Rattle.xc_words.specs.Laws.{TakesWithoutFault};

/// The command takes just the lists at which no step of its reading fails.
#[tactic(auto, using(crate::proofs::Agreeing::taken_without_fault))]
pub fn lists_are_taken_without_fault()
    ensures { TakesWithoutFault }
{}
