//! The lines of a marked report, each of which is a comment, against a text by hand.

ghost use Rattle.std.specs.Prelude.{◌≡◌, ◌≤◌, true, length};
ghost use Rattle.xc_alg.specs.Products.{product};
ghost use Rattle.xc_merge.specs.Merges.{parts_of};
ghost use Rattle.xc_merge.specs.Projections.{states_of};
ghost use Rattle.xc_machine.specs.Machines.{merge_of};
ghost use Rattle.xc_ctl.specs.Tables.{is_table_in};

use crate::engines::formulas_of;
use crate::machines::{CHAIN, TWO, machine_of};
use std::alloc::Global;
use std::test::Fail;
use xc_base::{Bytes, List, Memory};
use xc_ctl::Formula;
use xc_machine::Machine;
use xc_plain::solve;
use xc_report::{block, head};

const ALICE: &str =
    "view alice\nlattice two.lat\nvar x 0 1\ninit x=0\nprop p T when x=1\ncommand go with T when true do x:=1\n";

const BOB: &str =
    "view bob\nlattice chain.lat\nvar x 0 1\ninit x=0\nprop p T when x=1\ncommand go with M when x=0 do x:=1\ncommand back with T when x=1 do x:=0\n";

const PAIR: &str =
    "map pair\nuse alice alice.view\nuse bob bob.view\nvar x 0 1\nprop p\nsend alice x x\nsend bob x x\ntell alice p p\ntell bob p p\n";

// The block of a formula, as the third in a marked report and with the size of a diagram.
#[tactic(auto, unfolding(xc_merge::specs::MergedFrames::merged_frame))]
fn marked_block(alloc: Global, machine: &Machine, formula: &Formula) -> Result<Bytes, Memory>
    requires few { states_of (merge_of machine.now).plan ≤ 4096 }
    requires range { let m = merge_of machine.now in is_table_in (product (parts_of m)).size (length m.plan.props) formula.now.nodes ≡ true }
{
    let table = solve(alloc, machine, formula)?;
    block(alloc, machine, formula, 3, &table, Some(12), true)
}

// The line of a machine, and that block of the one formula of a text.
fn marked_report(alloc: Global, machine: &Machine, text: &str) -> Result<Bytes, Fail> {
    let mut report = head(alloc, machine, true)?;
    let formulas = formulas_of(alloc, machine, text)?;
    match formulas.items.as_slice() {
        [formula] if machine.states() <= 4096 => {
            report.extend(marked_block(alloc, machine, formula)?.as_slice())?;
            Ok(report)
        }
        _ => Ok(List::new(alloc)),
    }
}

#[test]
fn each_line_of_a_marked_report_is_a_comment(rt: HostRuntime) -> Result<(), Fail> {
    let machine = machine_of(rt.alloc(), PAIR, &[(ALICE, TWO), (BOB, CHAIN)])?;
    let report = marked_report(rt.alloc(), &machine, "EF p")?;
    assert_eq!(rt;
        report.as_slice(),
        b"# map pair states 2 elements 6 height 3 initial 1\n# formula 3 E[true U p]\n# rounds 2 EU 2\n# value 0 x=0 T,M\n# share alice F=0 T=1\n# share bob F=0 M=1 T=0\n# diagram 12\n".as_slice()
    );
    Ok(())
}
