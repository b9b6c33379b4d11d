ghost use Rattle.std.specs.Prelude.{◌≡◌, ◌++◌, ◌∷◌, [], IfOk, OnOk};
ghost use Rattle.xc_view.specs.ViewFiles.{vars_of};
ghost use Rattle.xc_view_lines.specs.Statements.{stated};
ghost use Rattle.xc_view.specs.Drafts.{all_stated, IsFair};

use std::alloc::Global;
use xc_base::{List, Memory};
use xc_forms::{Vars, copy_domain};
use xc_view_lines::Statement;

/// Faultless statements of a file, with their variables.
#[derive(Debug, Drop)]
pub(crate) struct Draft<'a> {
    pub(crate) statements: List<Statement<'a>>,
    pub(crate) vars: Vars,
    ghost same: { vars ≡ vars_of (all_stated statements) },
    ghost fair: { IsFair (all_stated statements) },
}

fn push_var(alloc: Global, vars: &mut Vars, s: &Statement) -> Result<(), Memory>
    ensures { OnOk result (vars.new ≡ vars.old ++ vars_of (stated s.now ∷ [])) }
{
    if let Statement::Var(domain) = s {
        vars.push(copy_domain(alloc, domain)?)?;
    }
    Ok(())
}

impl<'a> Draft<'a> {
    /// No statement.
    pub(crate) fn new(alloc: Global) -> Draft<'a>
        ensures { result.statements ≡ [] }
    {
        Draft {
            statements: List::new(alloc),
            vars: List::new(alloc),
        }
    }

    /// The statements of the draft and one more.
    pub(crate) fn with(self, alloc: Global, s: Statement<'a>) -> Result<Draft<'a>, Memory>
        requires { IsFair (all_stated self.statements ++ stated s ∷ []) }
        ensures { IfOk result (λ d. d.statements ≡ self.entry.statements ++ s.entry ∷ []) }
    {
        let Draft {
            mut statements,
            mut vars,
        } = self;
        push_var(alloc, &mut vars, &s)?;
        statements.push(s)?;
        Ok(Draft { statements, vars })
    }
}
