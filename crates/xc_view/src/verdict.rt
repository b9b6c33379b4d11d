ghost use Rattle.xc_view.specs.Laws.{ViewsAreUnique, FaultsAreUnique, AcceptedHasNoFault, EachIsJudged};

use xc_base::{FileKind, files_are_judged_once};

/// The kind of files that viewpoint files are.
pub struct ViewFiles;

impl FileKind for ViewFiles {
    ghost use Rattle.xc_view.specs.ViewFiles.{ViewValue, view_format};
    ghost use Rattle.xc_view_lines.specs.ViewLines.{Statement as Stated};
    ghost use Rattle.xc_view.specs.Deciding.{decide};

    ghost Statement = { Stated };

    ghost Value = { ViewValue };

    ghost format = { view_format };

    ghost decide = { decide };
}

/// A viewpoint file says one view or has one first fault, and never both.
pub fn files_have_one_view()
    ensures views { ViewsAreUnique }
    ensures faults { FaultsAreUnique }
    ensures never_both { AcceptedHasNoFault }
    ensures judged { EachIsJudged }
{
    files_are_judged_once::<ViewFiles>();
}
