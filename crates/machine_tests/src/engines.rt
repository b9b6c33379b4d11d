//! The rounds of formulas on machines of one viewpoint, against values by hand.

ghost use Rattle.std.specs.Prelude.{◌≡◌, ◌<◌, ◌≤◌, true, length, IfOk};
ghost use Rattle.std.specs.List.{list_all};
ghost use Rattle.xc_alg.specs.Products.{product};
ghost use Rattle.xc_merge.specs.Merges.{parts_of};
ghost use Rattle.xc_merge.specs.Projections.{states_of};
ghost use Rattle.xc_machine.specs.Machines.{merge_of};
ghost use Rattle.xc_ctl.specs.Formulas.{nodes_in};
ghost use Rattle.xc_ctl.specs.Tables.{is_table_in};

use crate::machines::{CHAIN, machine_of};
use std::alloc::{AllocError, Global};
use std::fmt::Write;
use std::test::Fail;
use xc_alg::Algebra;
use xc_base::cut_lines;
use xc_ctl::{Formula, Formulas, Rounds};
use xc_formula_text::read_formulas;
use xc_machine::Machine;
use xc_plain::solve;
use xc_report::formulas_fit;

/// The formulas of a text, over the propositions of a machine and its elements.
pub(crate) fn formulas_of(alloc: Global, machine: &Machine, text: &str) -> Result<Formulas, Fail>
    ensures { let m = merge_of machine.now in IfOk result (λ fs. list_all (is_table_in (product (parts_of m)).size (length m.plan.props)) (nodes_in fs) ≡ true) }
{
    formulas_fit(machine);
    let lines = cut_lines(alloc, text.as_bytes(), 65_536)?;
    let product = machine.product();
    let (bottom, top) = (product.bottom(), product.top());
    let props = machine.map().props();
    let formulas = read_formulas(alloc, &lines, props, machine.parts(), bottom, top)?;
    Ok(formulas)
}

// The values of a node in a round, state by state.
fn round_told<T: Rounds>(
    alloc: Global,
    table: &T,
    node: u16,
    round: u32,
) -> Result<String, AllocError>
    requires node { node < (T.table table.now).nodes }
    requires round { round ≤ (T.table table.now).rounds node }
{
    let mut text = String::new(alloc);
    for state in 0..table.states() {
        write!(text, "{}", table.round_at(node, round, state))?;
    }
    Ok(text)
}

// The values of a node in each round before the last, and then those that it has.
fn rounds_told<T: Rounds>(alloc: Global, table: &T, node: u16) -> Result<String, AllocError>
    requires { node < (T.table table.now).nodes }
{
    let mut text = String::new(alloc);
    for round in 0..table.rounds(node) {
        write!(text, "{} ", round_told(alloc, table, node, round)?)?;
    }
    for state in 0..table.states() {
        write!(text, "{}", table.at(node, state))?;
    }
    Ok(text)
}

// The rounds of a formula.
#[tactic(auto, unfolding(xc_merge::specs::MergedFrames::merged_frame))]
fn solved_told(alloc: Global, machine: &Machine, formula: &Formula) -> Result<String, Fail>
    requires few { states_of (merge_of machine.now).plan ≤ 4096 }
    requires range { let m = merge_of machine.now in is_table_in (product (parts_of m)).size (length m.plan.props) formula.now.nodes ≡ true }
{
    let table = solve(alloc, machine, formula)?;
    let count = formula.nodes().len();
    if 0 < count && count <= 256 {
        Ok(rounds_told(alloc, &table, (count - 1) as u16)?)
    } else {
        Ok(format!(in alloc; "no node")?)
    }
}

// The rounds of the one formula of a text on the machine of one viewpoint.
fn told(alloc: Global, machine: &Machine, text: &str) -> Result<String, Fail> {
    let formulas = formulas_of(alloc, machine, text)?;
    match formulas.items.as_slice() {
        [formula] if machine.states() <= 4096 => solved_told(alloc, machine, formula),
        _ => Ok(format!(in alloc; "not solved")?),
    }
}

const MAP: &str =
    "map one\nuse a a.view\nvar x 0 1 2 3\nprop p\nprop q\nsend a x x\ntell a p p\ntell a q q\n";

// 0 leads to 1 and to 3, 1 to 2 and 2 to itself; 3 leads nowhere. p holds at 2, and q at 1.
const LOOP: &str =
    "view a\nlattice chain.lat\nvar x 0 1 2 3\ninit x=0\nprop p T when x=2\nprop q T when x=1\ncommand b with T when x=0 do x:=1\ncommand c with T when x=0 do x:=3\ncommand d with T when x=1 do x:=2\ncommand e with T when x=2 do skip\n";

// 0 may lead to 1, and 1 leads to itself, as 2 and 3 do, which lead to each other. p holds at 1.
const MAYBE: &str =
    "view a\nlattice chain.lat\nvar x 0 1 2 3\ninit x=0\nprop p T when x=1\nprop q F when true\ncommand b with M when x=0 do x:=1\ncommand c with T when x!=0 do skip\ncommand d with T when x=2 do x:=3\ncommand e with T when x=3 do x:=2\n";

#[test]
fn formulas_settle_round_by_round(rt: HostRuntime) -> Result<(), Fail> {
    let table = [
        (LOOP, "EX p", "0220"),
        (LOOP, "!p & q | {M}", "1211"),
        (LOOP, "EF p", "0000 0020 0220 2220"),
        (LOOP, "AF p", "0000 0020 0220"),
        (LOOP, "E[q U p]", "0000 0020 0220"),
        (LOOP, "A[q U p]", "0000 0020 0220"),
        (LOOP, "EG p", "2222 0020"),
        (LOOP, "EG q", "2222 0200 0000"),
        (MAYBE, "EX p", "1200"),
        (MAYBE, "AX !p", "1022"),
        (MAYBE, "EF p", "0000 0200 1200"),
        (MAYBE, "AF p", "0000 0200 1200"),
        (MAYBE, "E[true U false]", "0000"),
        (MAYBE, "EG true", "2222 1222"),
    ];
    for (view, text, expected) in table {
        let machine = machine_of(rt.alloc(), MAP, &[(view, CHAIN)])?;
        let given = told(rt.alloc(), &machine, text)?;
        assert_eq!(rt; given.as_str(), expected, "{text}");
    }
    Ok(())
}
