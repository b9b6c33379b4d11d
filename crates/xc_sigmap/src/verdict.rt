ghost use Rattle.xc_sigmap.specs.Laws.{MapsAreUnique, FaultsAreUnique, AcceptedHasNoFault, EachIsJudged};

use xc_base::{FileKind, files_are_judged_once};

/// The kind of files that map files are.
pub struct MapFiles;

impl FileKind for MapFiles {
    ghost use Rattle.xc_sigmap_lines.specs.MapFiles.{MapValue, map_format};
    ghost use Rattle.xc_sigmap_lines.specs.declared.statement.Statement.{Statement as Stated};
    ghost use Rattle.xc_sigmap_lines.specs.Deciding.{decide};

    ghost Statement = { Stated };

    ghost Value = { MapValue };

    ghost format = { map_format };

    ghost decide = { decide };
}

/// A map file says one map or has one first fault, and never both.
pub fn files_have_one_map()
    ensures maps { MapsAreUnique }
    ensures faults { FaultsAreUnique }
    ensures never_both { AcceptedHasNoFault }
    ensures judged { EachIsJudged }
{
    files_are_judged_once::<MapFiles>();
}
