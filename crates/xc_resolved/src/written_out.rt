//! Abbreviations written out, where a formula may have names that are not known.

ghost use Rattle.std.specs.Prelude.{◌≡◌, IfOk};
ghost use Rattle.std.specs.Option.{option_map};
ghost use Rattle.xc_ctl.specs.Trees.{Const, Not, And, Or, Ex, Eg, both};
ghost use Rattle.xc_resolved.specs.Resolved.{prefixed, until};
ghost use Rattle.xc_ctl.specs.Formulas.{tree_of};
ghost use Rattle.xc_formula.specs.declared.prefix.Prefix.TheVariants.{AllGlobally};

use std::alloc::Global;
use xc_base::Memory;
use xc_ctl::Tree;
use xc_formula::{Paths, Prefix};

fn not(alloc: Global, tree: Option<Tree>) -> Result<Option<Tree>, Memory>
    ensures { IfOk result (λ t. option_map tree_of t ≡ option_map Not (option_map tree_of tree)) }
{
    match tree {
        Some(tree) => Ok(Some(Tree::Not(Box::new(alloc, tree)?))),
        None => Ok(None),
    }
}

fn some_next(alloc: Global, tree: Option<Tree>) -> Result<Option<Tree>, Memory>
    ensures { IfOk result (λ t. option_map tree_of t ≡ option_map Ex (option_map tree_of tree)) }
{
    match tree {
        Some(tree) => Ok(Some(Tree::Ex(Box::new(alloc, tree)?))),
        None => Ok(None),
    }
}

#[tactic(auto, using(crate::proofs::WrittenOut::all_next_is))]
fn all_next(alloc: Global, tree: Option<Tree>) -> Result<Option<Tree>, Memory>
    ensures { IfOk result (λ t. option_map tree_of t ≡ option_map (λ f. Not (Ex (Not f))) (option_map tree_of tree)) }
{
    let inner = not(alloc, tree)?;
    let next = some_next(alloc, inner)?;
    not(alloc, next)
}

fn some_globally(alloc: Global, tree: Option<Tree>) -> Result<Option<Tree>, Memory>
    ensures { IfOk result (λ t. option_map tree_of t ≡ option_map Eg (option_map tree_of tree)) }
{
    match tree {
        Some(tree) => Ok(Some(Tree::Eg(Box::new(alloc, tree)?))),
        None => Ok(None),
    }
}

fn joined_until(alloc: Global, paths: Paths, left: Tree, right: Tree) -> Result<Tree, Memory>
    ensures { IfOk result (λ t. tree_of t ≡ until paths (tree_of left) (tree_of right)) }
{
    let left = Box::new(alloc, left)?;
    let right = Box::new(alloc, right)?;
    match paths {
        Paths::SomePath => Ok(Tree::Eu(left, right)),
        Paths::EveryPath => Ok(Tree::Au(left, right)),
    }
}

/// Two formulas in brackets.
pub(crate) fn until(
    alloc: Global,
    paths: Paths,
    left: Option<Tree>,
    right: Option<Tree>,
) -> Result<Option<Tree>, Memory>
    ensures { IfOk result
        (λ t. option_map tree_of t ≡ both (until paths) (option_map tree_of left) (option_map tree_of right)) }
{
    match (left, right) {
        (Some(left), Some(right)) => Ok(Some(joined_until(alloc, paths, left, right)?)),
        _ => Ok(None),
    }
}

#[tactic(auto, using(crate::proofs::WrittenOut::finally_is))]
fn finally(
    alloc: Global,
    top: u16,
    paths: Paths,
    tree: Option<Tree>,
) -> Result<Option<Tree>, Memory>
    ensures { IfOk result (λ t. option_map tree_of t ≡ option_map (until paths (Const top)) (option_map tree_of tree)) }
{
    until(alloc, paths, Some(Tree::Const(top)), tree)
}

#[tactic(auto, using(crate::proofs::WrittenOut::all_globally_is))]
fn all_globally(alloc: Global, top: u16, tree: Option<Tree>) -> Result<Option<Tree>, Memory>
    ensures { IfOk result (λ t. option_map tree_of t ≡ option_map (prefixed top AllGlobally) (option_map tree_of tree)) }
{
    let inner = not(alloc, tree)?;
    let reached = finally(alloc, top, Paths::SomePath, inner)?;
    not(alloc, reached)
}

/// With the prefix before it, where `top` is the greatest element.
pub(crate) fn prefixed(
    alloc: Global,
    top: u16,
    prefix: Prefix,
    tree: Option<Tree>,
) -> Result<Option<Tree>, Memory>
    ensures { IfOk result (λ t. option_map tree_of t ≡ option_map (prefixed top prefix) (option_map tree_of tree)) }
{
    match prefix {
        Prefix::Negation => not(alloc, tree),
        Prefix::SomeNext => some_next(alloc, tree),
        Prefix::AllNext => all_next(alloc, tree),
        Prefix::SomeFinally => finally(alloc, top, Paths::SomePath, tree),
        Prefix::AllFinally => finally(alloc, top, Paths::EveryPath, tree),
        Prefix::SomeGlobally => some_globally(alloc, tree),
        Prefix::AllGlobally => all_globally(alloc, top, tree),
    }
}

pub(crate) fn and(
    alloc: Global,
    left: Option<Tree>,
    right: Option<Tree>,
) -> Result<Option<Tree>, Memory>
    ensures { IfOk result
        (λ t. option_map tree_of t ≡ both And (option_map tree_of left) (option_map tree_of right)) }
{
    match (left, right) {
        (Some(left), Some(right)) => Ok(Some(Tree::And(
            Box::new(alloc, left)?,
            Box::new(alloc, right)?,
        ))),
        _ => Ok(None),
    }
}

pub(crate) fn or(
    alloc: Global,
    left: Option<Tree>,
    right: Option<Tree>,
) -> Result<Option<Tree>, Memory>
    ensures { IfOk result
        (λ t. option_map tree_of t ≡ both Or (option_map tree_of left) (option_map tree_of right)) }
{
    match (left, right) {
        (Some(left), Some(right)) => Ok(Some(Tree::Or(
            Box::new(alloc, left)?,
            Box::new(alloc, right)?,
        ))),
        _ => Ok(None),
    }
}

#[tactic(auto, using(crate::proofs::WrittenOut::implies_is))]
pub(crate) fn implies(
    alloc: Global,
    left: Option<Tree>,
    right: Option<Tree>,
) -> Result<Option<Tree>, Memory>
    ensures { IfOk result
        (λ t. option_map tree_of t
        ≡ both (λ f g. Or (Not f) g) (option_map tree_of left) (option_map tree_of right)) }
{
    let left = not(alloc, left)?;
    or(alloc, left, right)
}
