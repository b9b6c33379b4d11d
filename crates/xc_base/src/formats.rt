ghost use Rattle.std.specs.Prelude.{List, ℕ, Option};
ghost use Rattle.xc_base.specs.Formats.{Format};
ghost use Rattle.xc_base.specs.Deciding.{Decides};
ghost use Rattle.xc_base.specs.Judging.{GivesStatements, GivesFaults, StatementsAreUnique};
ghost use Rattle.xc_base.specs.Judging.{FirstFaultsAreUnique, AcceptedHasNoFault, EachIsJudged};

/// A kind of file of statements, with a function that says which statement a row is.
pub trait FileKind {
    ghost Statement: { Type 0 };

    ghost Value: { Type 0 };

    ghost format: { Format Statement Value };

    ghost decide: { List Statement → List (List ℕ) → Option Statement };
}

/// Each file of a kind has one judgement: its statements, or its first fault. The kind's function gives it, where it
/// gives what is due.
pub fn files_are_judged_once<K: FileKind>()
    requires { Decides K.format K.decide }
    ensures statements { GivesStatements K.format K.decide }
    ensures faults { GivesFaults K.format K.decide }
    ensures unique { StatementsAreUnique K.format }
    ensures one_fault { FirstFaultsAreUnique K.format }
    ensures never_both { AcceptedHasNoFault K.format }
    ensures judged { EachIsJudged K.format }
{}
