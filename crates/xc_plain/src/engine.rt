//! What formulas denote on a machine.

ghost use Rattle.std.specs.Prelude.{◌≡◌, ◌<◌, ◌≤◌, ◌*◌, ℕ, true, List, length, IfOk};
ghost use Rattle.std.specs.List.{sum};
ghost use Rattle.xc_alg.specs.Products.{product};
ghost use Rattle.xc_product.specs.Heights.{AreHeights};
ghost use Rattle.xc_fixpoint.specs.Functions.{Agree};
ghost use Rattle.xc_ctl.specs.Denotations.{AreDenotations};
ghost use Rattle.xc_ctl.specs.Rounds.{IsTableFor};
ghost use Rattle.xc_ctl.specs.Tables.{is_table_in, are_ordered_from};
ghost use Rattle.xc_plain.specs.Successors.{AreRowsOf, AreRowsOf-prop};
ghost use Rattle.xc_plain.specs.Nodes.{AreTold};
ghost use Rattle.xc_plain.specs.Tables.{table_of};

use crate::node::node_rows;
use crate::row::Row;
use crate::steps::rows_of;
use crate::table::PlainTable;
use std::alloc::Global;
use xc_base::{List, Memory};
use xc_ctl::{Formula, Framed, Kind};

/// The rows of all nodes. Children stand before their parents.
#[tactic(auto, using(crate::proofs::Tabling::safe_told, crate::proofs::Tabling::rows_told, crate::proofs::Tabling::child_first, crate::proofs::Tabling::kind_first, crate::proofs::Tabling::nothing_told))]
fn all_rows<M: Framed>(
    alloc: Global,
    model: &M,
    rows: &[Row],
    nodes: &[Kind],
) -> Result<List<List<List<u16>>>, Memory>
    requires few { (M.frame model.now).states ≤ 4096 }
    requires rows { AreRowsOf (M.frame model.now) rows.now }
    requires ordered { are_ordered_from 0 nodes.now ≡ true }
    requires range { is_table_in (product (M.frame model.now).parts).size (M.frame model.now).props nodes.now ≡ true }
    ensures count { IfOk result (λ table. length table ≡ length nodes.now) }
    ensures told { IfOk result (λ table. AreTold (M.frame model.now) nodes.now table) }
{
    let mut table = List::new(alloc);
    for kind in nodes {
        let new = node_rows(alloc, model, rows, table.as_slice(), *kind)?;
        table.push(new)?;
    }
    Ok(table)
}

/// A machine whose transitions are kept, for many formulas.
#[derive(Drop)]
pub struct Engine<'a, M: Framed> {
    /// The machine.
    pub model: &'a M,
    rows: List<Row>,
    ghost few: { (M.frame model.now).states ≤ 4096 },
    ghost kept: { AreRowsOf (M.frame model.now) rows } by { AreRowsOf-prop (M.frame model.now) rows },
}

impl<'a, M: Framed> Engine<'a, M> {
    /// The engine of a machine of at most 4,096 states. It asks once for the value of each transition.
    pub fn of(alloc: Global, model: &'a M) -> Result<Engine<'a, M>, Memory>
        requires { (M.frame model.now).states ≤ 4096 }
        ensures { IfOk result (λ engine. engine.model.now ≡ model.now) }
    {
        let rows = rows_of(alloc, model)?;
        Ok(Engine { model, rows })
    }

    /// What each node of a formula denotes on the machine, and the rounds in which its fixpoints are reached: the iterates of
    /// each up to the first that a step leaves as it is. No two such tables differ, and the rounds of a node are at most the
    /// number of states times the height of the algebra. The formula's constants are elements of the machine's algebra, and its
    /// propositions some of the machine's.
    pub fn solve(&self, alloc: Global, formula: &Formula) -> Result<PlainTable, Memory>
        requires { is_table_in (product (M.frame self.now.model.now).parts).size (M.frame self.now.model.now).props formula.now.nodes ≡ true }
        ensures table { IfOk result (λ t. IsTableFor (M.frame self.now.model.now) formula.now.nodes (table_of t)) }
        ensures unique { IfOk result (λ t. (d : ℕ → ℕ → ℕ) → AreDenotations (M.frame self.now.model.now) formula.now.nodes d → (i : ℕ) → i < length formula.now.nodes → Agree (M.frame self.now.model.now).states (d i) ((table_of t).at i)) }
        ensures few_rounds { IfOk result (λ t. (heights : List ℕ) → AreHeights (M.frame self.now.model.now).parts heights → (i : ℕ) → i < length formula.now.nodes → (table_of t).rounds i ≤ (M.frame self.now.model.now).states * sum heights) }
    {
        let nodes = formula.nodes().as_slice();
        let table = all_rows(alloc, self.model, self.rows.as_slice(), nodes)?;
        Ok(PlainTable::of(self.model.states(), table))
    }
}

/// What each node of a formula denotes on a machine of at most 4,096 states, as `Engine::solve` tells it. For more formulas than
/// one make an `Engine`, which asks for the transitions once.
pub fn solve<M: Framed>(alloc: Global, model: &M, formula: &Formula) -> Result<PlainTable, Memory>
    requires few { (M.frame model.now).states ≤ 4096 }
    requires range { is_table_in (product (M.frame model.now).parts).size (M.frame model.now).props formula.now.nodes ≡ true }
    ensures table { IfOk result (λ t. IsTableFor (M.frame model.now) formula.now.nodes (table_of t)) }
    ensures unique { IfOk result (λ t. (d : ℕ → ℕ → ℕ) → AreDenotations (M.frame model.now) formula.now.nodes d → (i : ℕ) → i < length formula.now.nodes → Agree (M.frame model.now).states (d i) ((table_of t).at i)) }
    ensures few_rounds { IfOk result (λ t. (heights : List ℕ) → AreHeights (M.frame model.now).parts heights → (i : ℕ) → i < length formula.now.nodes → (table_of t).rounds i ≤ (M.frame model.now).states * sum heights) }
{
    let engine = Engine::of(alloc, model)?;
    let table = engine.solve(alloc, formula)?;
    Ok(table)
}
