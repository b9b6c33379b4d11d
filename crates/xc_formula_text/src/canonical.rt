//! Canonical texts of formulas.

ghost use Rattle.std.specs.Prelude.{◌≡◌, ◌≤◌, ◌∷◌, [], ℕ, true, List as Items, length, None, IfOk};
ghost use Rattle.xc_theory.specs.Codes.{total};
ghost use Rattle.xc_base.specs.Formats.{IsAccepted};
ghost use Rattle.xc_base.specs.Lines.{text_rows};
ghost use Rattle.xc_base.specs.Text.{text_fault};
ghost use Rattle.xc_ctl.specs.Trees.{Signature, is_fit, sizes_of};
ghost use Rattle.xc_ctl.specs.Tables.{is_table_in};
ghost use Rattle.xc_ctl.specs.TableTrees.{formula_of};
ghost use Rattle.xc_formula_text.specs.Texts.{text_of};
ghost use Rattle.xc_formula_text.specs.FormulaFiles.{text_limit, formula_format};
ghost use Rattle.xc_formula_text.specs.Rereading.{IsGiven, IsOneLine};

use crate::printer::text_of;
use std::alloc::Global;
use xc_base::{Bytes, List, Memory, Word};
use xc_ctl::{Formula, Vocabulary, formula_of};

/// The text of a formula, without a line's end, or the want of memory for it.
///
/// `props` are the names of the propositions, `parts` the names of the elements of each part, and `bottom` and `top` the
/// codes of the least and the greatest element of their product. With these a formula that was read is read again from its
/// text.
pub fn print(
    alloc: Global,
    formula: &Formula,
    props: &List<Word>,
    parts: &List<List<Word>>,
    bottom: u16,
    top: u16,
) -> Result<Bytes, Memory>
    requires fit { is_fit (record { props = props.now; parts = parts.now; bottom = bottom; top = top }) ≡ true }
    requires range { is_table_in (total (sizes_of parts.now)) (length props.now) formula.now.nodes ≡ true }
    ensures text { let n : Signature = record { props = props.now; parts = parts.now; bottom = bottom; top = top } in IfOk result (λ text. text ≡ text_of n (formula_of formula.now.nodes)) }
    ensures again { let n : Signature = record { props = props.now; parts = parts.now; bottom = bottom; top = top } in IfOk result (λ text. IsGiven n formula.now.nodes → (file : Items ℕ) → IsOneLine text file → IsAccepted (formula_format n) (text_rows file) (formula.now.nodes ∷ [])) }
    ensures sound { let n : Signature = record { props = props.now; parts = parts.now; bottom = bottom; top = top } in IfOk result (λ text. IsGiven n formula.now.nodes → (file : Items ℕ) → IsOneLine text file → (limit : ℕ) → length file ≤ limit → text_fault limit file ≡ None) }
    ensures short { let n : Signature = record { props = props.now; parts = parts.now; bottom = bottom; top = top } in IfOk result (λ text. IsGiven n formula.now.nodes → length text ≤ text_limit) }
{
    let vocabulary = Vocabulary {
        props,
        parts,
        bottom,
        top,
    };
    let tree = formula_of(alloc, formula)?;
    text_of(alloc, &tree, &vocabulary)
}
