ghost use Rattle.std.specs.Prelude.{◌≡◌, ◌++◌, ◌∷◌, [], IfOk, OnOk};
ghost use Rattle.xc_sigmap_lines.specs.MapFiles.{uses_of, vars_of, props_of};

use std::alloc::Global;
use xc_base::{List, Memory, Word};
use xc_forms::{Vars, copy_domain};
use xc_sigmap_lines::{Statement, Use};

/// What statements declare, and others name.
#[derive(Debug, Drop)]
pub(crate) struct Names {
    pub(crate) uses: List<Use>,
    pub(crate) vars: Vars,
    pub(crate) props: List<Word>,
}

fn push_use(alloc: Global, uses: &mut List<Use>, s: &Statement) -> Result<(), Memory>
    ensures { OnOk result (uses.new ≡ uses.old ++ uses_of (s.now ∷ [])) }
{
    if let Statement::Use(declared) = s {
        let name = declared.name.copy(alloc)?;
        let file = declared.file.copy(alloc)?;
        uses.push(Use { name, file })?;
    }
    Ok(())
}

fn push_var(alloc: Global, vars: &mut Vars, s: &Statement) -> Result<(), Memory>
    ensures { OnOk result (vars.new ≡ vars.old ++ vars_of (s.now ∷ [])) }
{
    if let Statement::Var(domain) = s {
        vars.push(copy_domain(alloc, domain)?)?;
    }
    Ok(())
}

fn push_prop(alloc: Global, props: &mut List<Word>, s: &Statement) -> Result<(), Memory>
    ensures { OnOk result (props.new ≡ props.old ++ props_of (s.now ∷ [])) }
{
    if let Statement::Prop(name) = s {
        props.push(name.copy(alloc)?)?;
    }
    Ok(())
}

impl Names {
    /// Nothing is declared.
    pub(crate) fn new(alloc: Global) -> Names
        ensures { result ≡ record { uses = []; vars = []; props = [] } }
    {
        Names {
            uses: List::new(alloc),
            vars: List::new(alloc),
            props: List::new(alloc),
        }
    }

    /// What these declare, and one statement more.
    pub(crate) fn with(self, alloc: Global, s: &Statement) -> Result<Names, Memory>
        ensures { IfOk result (λ names. names ≡ record { uses = self.uses ++ uses_of (s.now ∷ []); vars = self.vars ++ vars_of (s.now ∷ []); props = self.props ++ props_of (s.now ∷ []) }) }
    {
        let Names {
            mut uses,
            mut vars,
            mut props,
        } = self;
        push_use(alloc, &mut uses, s)?;
        push_var(alloc, &mut vars, s)?;
        push_prop(alloc, &mut props, s)?;
        Ok(Names { uses, vars, props })
    }
}
