//! The merged machine.

ghost use Rattle.std.specs.Prelude.{◌≡◌, ◌≤◌, IfOk, IfErr, length, map};
ghost use Rattle.xc_sigmap.specs.Maps.{value_of as map_of};
ghost use Rattle.xc_merge.specs.Merging.{viewpoint_of};
ghost use Rattle.xc_merge.specs.Projections.{states_of};
ghost use Rattle.xc_machine.specs.Machines.{merge_of};
ghost use Rattle.xc_course.specs.Trees.{Merges, Within};
ghost use Rattle.xc_course.specs.Works.{GoesOnAlways, StopsAlways};

use std::alloc::Global;
use xc_base::List;
use xc_lattice::Lattice;
use xc_lines::{Halt, refused_merge, refused_states};
use xc_machine::Machine;
use xc_sigmap::SigMap;
use xc_view::View;

/// Merges the viewpoints of a map.
#[tactic(auto, using(crate::proofs::Merging::merge_goes_on, crate::proofs::Merging::merge_wants))]
pub fn merge(alloc: Global, sigmap: SigMap, views: List<(View, Lattice)>) -> Result<Machine, Halt>
    requires { length views ≡ length (map_of sigmap).uses }
    ensures goes_on { IfOk result (λ m. GoesOnAlways (Merges (map_of sigmap) (map viewpoint_of views)) (merge_of m)) }
    ensures stops { IfErr result (StopsAlways (Merges (map_of sigmap) (map viewpoint_of views))) }
{
    match Machine::of(alloc, sigmap, views) {
        Ok(machine) => Ok(machine),
        Err(fault) => Err(Halt::Refused(refused_merge(alloc, &fault)?)),
    }
}

/// Goes on where a machine has at most that many states.
#[tactic(auto, using(crate::proofs::Merging::within_goes_on, crate::proofs::Merging::within_wants))]
pub fn within(alloc: Global, most: u32, machine: &Machine) -> Result<(), Halt>
    ensures few { IfOk result (λ x. states_of (merge_of machine.now).plan ≤ most) }
    ensures goes_on { IfOk result (GoesOnAlways (Within most (merge_of machine.now))) }
    ensures stops { IfErr result (StopsAlways (Within most (merge_of machine.now))) }
{
    let count = machine.states();
    if count > most {
        return Err(Halt::Refused(refused_states(alloc, count)?));
    }
    Ok(())
}
