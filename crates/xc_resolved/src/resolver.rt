//! Formulas written out.

ghost use Rattle.std.specs.Prelude.{◌≡◌, IfOk};
ghost use Rattle.std.specs.List.{position};
ghost use Rattle.std.specs.Option.{option_map};
ghost use Rattle.std.specs.Str.{bytes_eq};
ghost use Rattle.xc_base.specs.Lines.{texts};
ghost use Rattle.xc_ctl.specs.Trees.{Const, Atom, element_named};
ghost use Rattle.xc_resolved.specs.Resolved.{resolved};
ghost use Rattle.xc_formula.specs.FormulaReading.{written};
ghost use Rattle.xc_ctl.specs.Formulas.{signature, tree_of};

use crate::written_out::{and, implies, or, prefixed, until};
use std::alloc::Global;
use xc_base::{Lexeme, Memory, find_name};
use xc_ctl::{Tree, Vocabulary, element};
use xc_formula::Phrase;

#[tactic(auto, using(std::proofs::lemmas::Grind::common_steps, xc_ctl::proofs::ElementCodes::prop_fits))]
fn atom(vocabulary: &Vocabulary, name: &[u8]) -> Option<Tree>
    ensures { option_map tree_of result ≡ option_map Atom (position (bytes_eq name.now) vocabulary.now.props.now) }
{
    match find_name(vocabulary.props.as_slice(), name) {
        Some(place) => Some(Tree::Atom(place as u16)),
        None => None,
    }
}

#[tactic(auto, using(std::proofs::lemmas::Grind::common_steps, xc_ctl::proofs::ElementCodes::fit_parts, xc_ctl::proofs::ElementCodes::fit_total))]
fn constant(vocabulary: &Vocabulary, values: &[Lexeme]) -> Option<Tree>
    ensures { option_map tree_of result ≡ option_map Const (element_named vocabulary.now.parts.now (texts values.now)) }
{
    match element(vocabulary.parts, values) {
        Some(code) => Some(Tree::Const(code)),
        None => None,
    }
}

/// The formula written out, where its names are known.
pub fn resolve(
    alloc: Global,
    phrase: &Phrase,
    vocabulary: &Vocabulary,
) -> Result<Option<Tree>, Memory>
    ensures { IfOk result
        (λ t. option_map tree_of t ≡ resolved (signature vocabulary.now) (written phrase.now)) }
{
    match phrase {
        Phrase::True => Ok(Some(Tree::Const(vocabulary.top))),
        Phrase::False => Ok(Some(Tree::Const(vocabulary.bottom))),
        Phrase::Name(name) => Ok(atom(vocabulary, name)),
        Phrase::Braces(values) => Ok(constant(vocabulary, values.as_slice())),
        Phrase::Prefixed(prefix, inner) => {
            let inner = resolve(alloc, inner, vocabulary)?;
            prefixed(alloc, vocabulary.top, *prefix, inner)
        }
        Phrase::Until(paths, left, right) => {
            let left = resolve(alloc, left, vocabulary)?;
            let right = resolve(alloc, right, vocabulary)?;
            until(alloc, *paths, left, right)
        }
        Phrase::And(left, right) => {
            let left = resolve(alloc, left, vocabulary)?;
            let right = resolve(alloc, right, vocabulary)?;
            and(alloc, left, right)
        }
        Phrase::Or(left, right) => {
            let left = resolve(alloc, left, vocabulary)?;
            let right = resolve(alloc, right, vocabulary)?;
            or(alloc, left, right)
        }
        Phrase::Implies(left, right) => {
            let left = resolve(alloc, left, vocabulary)?;
            let right = resolve(alloc, right, vocabulary)?;
            implies(alloc, left, right)
        }
    }
}
