//! The table of a formula's nodes.

ghost use Rattle.std.specs.Prelude.{◌≡◌, ◌+◌, ◌-◌, ◌≤◌, ◌++◌, length, IfOk, OnOk};
ghost use Rattle.xc_ctl.specs.Tables.{size_of, nodes_from, nodes_of};
ghost use Rattle.xc_ctl.specs.Formulas.{tree_of};
ghost use Rattle.xc_ctl.specs.Resolving.{kind_of};

use crate::kind::Kind;
use crate::tree::Tree;
use std::alloc::Global;
use xc_base::{List, Memory};

/// How many nodes a tree has.
pub fn tree_size(tree: &Tree) -> usize
    requires { size_of (tree_of tree.now) ≤ 18446744073709551615 }
    ensures { result ≡ size_of (tree_of tree.now) }
{
    match tree {
        Tree::Const(_) | Tree::Atom(_) => 1,
        Tree::Not(inner) | Tree::Ex(inner) | Tree::Eg(inner) => tree_size(inner) + 1,
        Tree::And(left, right)
        | Tree::Or(left, right)
        | Tree::Eu(left, right)
        | Tree::Au(left, right) => tree_size(left) + tree_size(right) + 1,
    }
}

/// The number of the last node.
fn last(nodes: &List<Kind>) -> u16
    requires some { 1 ≤ length nodes.now }
    requires few { length nodes.now ≤ 256 }
    ensures { result ≡ length nodes.now - 1 }
{
    (nodes.len() - 1) as u16
}

/// The node of a tree whose children have these numbers.
fn node(tree: &Tree, first: u16, second: u16) -> Kind
    ensures { result ≡ kind_of (tree_of tree.now) first second }
{
    match tree {
        Tree::Const(code) => Kind::Const(*code),
        Tree::Atom(place) => Kind::Atom(*place),
        Tree::Not(_) => Kind::Not(first),
        Tree::And(..) => Kind::And(first, second),
        Tree::Or(..) => Kind::Or(first, second),
        Tree::Ex(_) => Kind::Ex(first),
        Tree::Eu(..) => Kind::Eu(first, second),
        Tree::Au(..) => Kind::Au(first, second),
        Tree::Eg(_) => Kind::Eg(first),
    }
}

/// Appends the nodes of a tree.
#[tactic(auto, using(std::proofs::lemmas::Grind::common_steps, crate::proofs::Nodes::node_steps))]
fn push_nodes(tree: &Tree, nodes: &mut List<Kind>) -> Result<(), Memory>
    requires { length nodes.old + size_of (tree_of tree.now) ≤ 256 }
    ensures nodes { OnOk result (nodes.new ≡ nodes.old ++ nodes_from (length nodes.old) (tree_of tree.now)) }
    ensures count { OnOk result (length nodes.new ≡ length nodes.old + size_of (tree_of tree.now)) }
{
    match tree {
        Tree::Const(_) | Tree::Atom(_) => nodes.push(node(tree, 0, 0)),
        Tree::Not(inner) | Tree::Ex(inner) | Tree::Eg(inner) => {
            push_nodes(inner, nodes)?;
            let child = last(nodes);
            nodes.push(node(tree, child, 0))
        }
        Tree::And(left, right)
        | Tree::Or(left, right)
        | Tree::Eu(left, right)
        | Tree::Au(left, right) => {
            push_nodes(left, nodes)?;
            let first = last(nodes);
            push_nodes(right, nodes)?;
            let second = last(nodes);
            nodes.push(node(tree, first, second))
        }
    }
}

/// The table of a tree.
pub fn nodes_of(alloc: Global, tree: &Tree) -> Result<List<Kind>, Memory>
    requires { size_of (tree_of tree.now) ≤ 256 }
    ensures { IfOk result (λ nodes. nodes ≡ nodes_of (tree_of tree.now)) }
{
    let mut nodes = List::new(alloc);
    push_nodes(tree, &mut nodes)?;
    Ok(nodes)
}
