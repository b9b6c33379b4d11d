ghost use Rattle.std.specs.Prelude.{◌≡◌, ◌++◌, ◌∷◌, [], IfOk};
ghost use Rattle.xc_sigmap.specs.Drafts.{IsFair};
ghost use Rattle.xc_sigmap.specs.Drafted.{named_in};

use crate::names::Names;
use std::alloc::Global;
use xc_base::{List, Memory};
use xc_sigmap_lines::Statement;

/// Faultless statements of a file, with what they declare.
#[derive(Debug, Drop)]
pub(crate) struct Draft {
    pub(crate) statements: List<Statement>,
    pub(crate) names: Names,
    ghost same: { names ≡ named_in statements },
    ghost fair: { IsFair statements },
}

impl Draft {
    /// No statement.
    pub(crate) fn new(alloc: Global) -> Draft
        ensures { result.statements ≡ [] }
    {
        Draft {
            statements: List::new(alloc),
            names: Names::new(alloc),
        }
    }

    /// The statements of the draft and one more.
    pub(crate) fn with(self, alloc: Global, s: Statement) -> Result<Draft, Memory>
        requires { IsFair (self.statements ++ s ∷ []) }
        ensures { IfOk result (λ d. d.statements ≡ self.statements ++ s ∷ []) }
    {
        let Draft {
            mut statements,
            names,
        } = self;
        let names = names.with(alloc, &s)?;
        statements.push(s)?;
        Ok(Draft { statements, names })
    }
}
