//! What holds of the files that are generated for a number and a size.
#![tactic(auto)]

ghost use Rattle.xc_gen_laws.specs.Laws.{GeneratedTextsAreClean, GeneratedFilesAreAccepted, GeneratedViewpointsMerge, GeneratedFormulasAreAccepted};

/// For every number and every size from 1 to 20 the files that are generated are accepted, and their viewpoints merge without a
/// fault.
pub fn generated_files_merge()
    ensures clean { GeneratedTextsAreClean }
    ensures accepted { GeneratedFilesAreAccepted }
    ensures merge { GeneratedViewpointsMerge }
    ensures formulas { GeneratedFormulasAreAccepted }
{}
