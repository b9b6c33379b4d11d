//! The formula that a table of nodes stands for.

ghost use Rattle.std.specs.Prelude.{◌≡◌, ◌<◌, true, length, IfOk};
ghost use Rattle.xc_ctl.specs.Formulas.{tree_of};
ghost use Rattle.xc_ctl.specs.Tables.{has_children_below, are_ordered_from, node_at};
ghost use Rattle.xc_ctl.specs.TableTrees.{trees_of, tree_at, tree_on, formula_of};

use crate::formula::Formula;
use crate::kind::Kind;
use crate::tree::Tree;
use std::alloc::Global;
use xc_base::Memory;

/// The node of a number.
fn node_at(nodes: &[Kind], number: usize) -> Kind
    requires { number < length nodes.now }
    ensures { result ≡ node_at nodes.now number }
{
    nodes[number]
}

/// The tree of the node of a number, for its parent.
#[tactic(auto, using(std::proofs::lemmas::Grind::common_steps, crate::proofs::TableTrees::front_ordered, crate::proofs::TableTrees::front_children, crate::proofs::TableTrees::front_tree))]
#[cycle(rebuilding)]
fn child_at(alloc: Global, nodes: &[Kind], number: u16) -> Result<Box<Tree>, Memory>
    requires table { are_ordered_from 0 nodes.now ≡ true }
    requires number { number < length nodes.now }
    ensures { IfOk result (λ tree. tree_of tree.value ≡ tree_at (trees_of nodes.now) number) }
{
    let number = usize::from(number);
    let tree = tree_on(alloc, &nodes[..number], node_at(nodes, number))?;
    Ok(Box::new(alloc, tree)?)
}

/// The tree of a node, by the nodes before it.
#[cycle(rebuilding)]
fn tree_on(alloc: Global, before: &[Kind], node: Kind) -> Result<Tree, Memory>
    requires table { are_ordered_from 0 before.now ≡ true }
    requires node { has_children_below (length before.now) node ≡ true }
    ensures { IfOk result (λ tree. tree_of tree ≡ tree_on (trees_of before.now) node) }
{
    match node {
        Kind::Const(code) => Ok(Tree::Const(code)),
        Kind::Atom(place) => Ok(Tree::Atom(place)),
        Kind::Not(i) => Ok(Tree::Not(child_at(alloc, before, i)?)),
        Kind::And(i, j) => Ok(Tree::And(child_at(alloc, before, i)?, child_at(alloc, before, j)?)),
        Kind::Or(i, j) => Ok(Tree::Or(child_at(alloc, before, i)?, child_at(alloc, before, j)?)),
        Kind::Ex(i) => Ok(Tree::Ex(child_at(alloc, before, i)?)),
        Kind::Eu(i, j) => Ok(Tree::Eu(child_at(alloc, before, i)?, child_at(alloc, before, j)?)),
        Kind::Au(i, j) => Ok(Tree::Au(child_at(alloc, before, i)?, child_at(alloc, before, j)?)),
        Kind::Eg(i) => Ok(Tree::Eg(child_at(alloc, before, i)?)),
    }
}

/// The tree of its last node.
#[tactic(auto, using(std::proofs::lemmas::Grind::common_steps, crate::proofs::TableTrees::table_some, crate::proofs::TableTrees::ordered, crate::proofs::TableTrees::front_ordered, crate::proofs::TableTrees::front_children))]
pub fn formula_of(alloc: Global, formula: &Formula) -> Result<Tree, Memory>
    ensures { IfOk result (λ tree. tree_of tree ≡ formula_of formula.now.nodes) }
{
    let nodes = formula.nodes().as_slice();
    let last = nodes.len() - 1;
    tree_on(alloc, &nodes[..last], node_at(nodes, last))
}
