//! Machines to test with, each by the texts of its map and of its viewpoints with their lattices.

use std::alloc::Global;
use std::test::Fail;
use xc_base::{List, cut_lines};
use xc_lattice::Lattice;
use xc_machine::Machine;
use xc_merge::MergeFault;
use xc_sigmap::SigMap;
use xc_view::View;

/// A view, and the lattice of its values.
pub(crate) type Viewpoint = (&'static str, &'static str);

pub(crate) const TWO: &str = "lattice two\nelements F T\nbelow F T\nnot F T\nnot T F\n";

pub(crate) const CHAIN: &str =
    "lattice chain\nelements F M T\nbelow F M\nbelow M T\nnot F T\nnot M M\nnot T F\n";

const DIAMOND: &str =
    "lattice diamond\nelements F N B T\nbelow F N\nbelow F B\nbelow N T\nbelow B T\nnot F T\nnot N N\nnot B B\nnot T F\n";

// Left reads the map's variables in the other order and cannot tell two values of one apart; right has its values in another order.
const LEFT: &str =
    "view left\nlattice chain.lat\nvar x 0 1\nvar y 0 1\ninit x=1\nprop u T when x=1\nprop w M when y=1\nprop u M when y=0\ncommand c0 with M when true do x:=1\ncommand c1 with T when x=1 do y:=any\ncommand c2 with F when true do skip\n";

const RIGHT: &str =
    "view right\nlattice diamond.lat\nvar z 1 0 2\ninit z!=0\nprop v N when z=2\nprop v B when z=1\ncommand d with B when z=1 do z:=next z\n";

const PLANT: &str =
    "map plant\nuse left left.view\nuse right right.view\nvar a 0 1 2\nvar b 0 1\nprop p\nprop q\nsend left y a 2=1\nsend left x b\nsend right z a\ntell left p u\ntell left q as M\ntell right p as B\ntell right q v\nstutter right N\n";

fn views(alloc: Global, viewpoints: &[Viewpoint]) -> Result<List<(View, Lattice)>, Fail> {
    let mut views = List::new(alloc);
    for (view, lattice) in viewpoints {
        let view = xc_view::read(alloc, &cut_lines(alloc, view.as_bytes(), 1_048_576)?)?;
        let lattice = xc_lattice::read(alloc, &cut_lines(alloc, lattice.as_bytes(), 1_048_576)?)?;
        views.push((view, lattice))?;
    }
    Ok(views)
}

fn map_of(alloc: Global, text: &str) -> Result<SigMap, Fail> {
    let lines = cut_lines(alloc, text.as_bytes(), 1_048_576)?;
    Ok(xc_sigmap::read(alloc, &lines)?)
}

/// What a map merges its viewpoints to. Out of memory is told too where there is no view for each of them.
pub(crate) fn machine_of(
    alloc: Global,
    map: &str,
    viewpoints: &[Viewpoint],
) -> Result<Machine, Fail> {
    let views = views(alloc, viewpoints)?;
    let map = map_of(alloc, map)?;
    if views.len() == map.uses().len() {
        Ok(Machine::of(alloc, map, views)?)
    } else {
        Ok(Err(MergeFault::Memory)?)
    }
}

pub(crate) fn plant(alloc: Global) -> Result<Machine, Fail> {
    machine_of(alloc, PLANT, &[(LEFT, CHAIN), (RIGHT, DIAMOND)])
}
