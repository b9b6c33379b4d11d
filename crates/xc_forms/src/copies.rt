//! Equal variables, with memory of their own.

ghost use Rattle.std.specs.Prelude.{◌≡◌, IfOk};

use crate::domain::{Domain, Vars};
use std::alloc::Global;
use xc_base::{List, Memory, copy_words};

/// An equal variable.
pub fn copy_domain(alloc: Global, domain: &Domain) -> Result<Domain, Memory>
    ensures { IfOk result (λ copy. copy ≡ domain.now) }
{
    let name = domain.name.copy(alloc)?;
    let values = copy_words(alloc, domain.values.as_slice())?;
    Ok(Domain { name, values })
}

fn copy_domains(alloc: Global, domains: &[Domain]) -> Result<Vars, Memory>
    ensures { IfOk result (λ copies. copies ≡ domains.now) }
{
    let mut copies = List::new(alloc);
    for domain in domains {
        copies.push(copy_domain(alloc, domain)?)?;
    }
    Ok(copies)
}

/// Equal variables.
pub fn copy_vars(alloc: Global, vars: &Vars) -> Result<Vars, Memory>
    ensures { IfOk result (λ copy. copy ≡ vars.now) }
{
    copy_domains(alloc, vars.as_slice())
}
