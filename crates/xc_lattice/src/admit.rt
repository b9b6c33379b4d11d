ghost use Rattle.std.specs.Prelude.{◌≡◌, ◌<◌, map, length, All, IfOk, IfErr};
ghost use Rattle.xc_base.specs.Names.{name_at};
ghost use Rattle.xc_lattice.specs.Drafts.{IsReady};
ghost use Rattle.xc_lattice.specs.Values.{said, IsRefusal, IsAdmitted};

use crate::fault::LatFault;
use crate::gather::Draft;
use crate::lattice::Lattice;
use std::alloc::Global;
use xc_base::{List, Memory, Word};
use xc_laws::find_break;

fn names_of(alloc: Global, names: &List<Word>, elements: &List<u8>) -> Result<List<Word>, Memory>
    requires { All (λ a. a < length names.now) elements.now }
    ensures { IfOk result (λ named. named ≡ map (name_at names.now) elements.now) }
{
    let mut named = List::new(alloc);
    for a in elements.as_slice() {
        let name = names.get(*a as usize).copy(alloc)?;
        named.push(name)?;
    }
    Ok(named)
}

/// The lattice of what a file says, where no law is broken.
pub(crate) fn admit(alloc: Global, draft: Draft) -> Result<Lattice, LatFault>
    requires { IsReady (said draft) }
    ensures ok { IfOk result (IsAdmitted (said draft)) }
    ensures err { IfErr result (IsRefusal (said draft)) }
{
    let Draft {
        name,
        names,
        order,
        negations,
    } = draft;
    match find_break(alloc, &order, negations.as_slice())? {
        None => Ok(Lattice::of(name, names, order, negations)),
        Some(broken) => {
            let elements = names_of(alloc, &names, &broken.elements)?;
            Err(LatFault::Broken {
                law: broken.law,
                elements,
            })
        }
    }
}
