ghost use Rattle.xc_lattice.specs.Laws.{VerdictsAreUnique, EachHasVerdict};

use xc_base::{FileKind, files_are_judged_once};

/// The kind of files that lattice files are.
pub struct LatticeFiles;

impl FileKind for LatticeFiles {
    ghost use Rattle.xc_lattice.specs.declared.statement.Statement.{Statement as Stated};
    ghost use Rattle.xc_lattice.specs.LatticeFiles.{LatticeValue, lattice_format};
    ghost use Rattle.xc_lattice.specs.Deciding.{decide};

    ghost Statement = { Stated };

    ghost Value = { LatticeValue };

    ghost format = { lattice_format };

    ghost decide = { decide };
}

/// A lattice file has one verdict: its first fault, or a law that it breaks first, or its lattice.
pub fn files_have_one_verdict()
    ensures at_most { VerdictsAreUnique }
    ensures at_least { EachHasVerdict }
{
    files_are_judged_once::<LatticeFiles>();
}
