//! The formulas on the rows of a file.

ghost use Rattle.std.specs.Prelude.{◌≡◌, ◌<◌, ◌≤◌, true, length, Some, IfOk, IfErr};
ghost use Rattle.std.specs.List.{list_all};
ghost use Rattle.xc_theory.specs.Codes.{total};
ghost use Rattle.xc_base.specs.Deciding.{Gives};
ghost use Rattle.xc_base.specs.Lines.{texts, rows_in, row_at};
ghost use Rattle.xc_ctl.specs.Trees.{sizes_of};
ghost use Rattle.xc_ctl.specs.Tables.{size_of, is_table};
ghost use Rattle.xc_formula_text.specs.FormulaFiles.{IsStop};
ghost use Rattle.xc_ctl.specs.Formulas.{signature, tree_of};
ghost use Rattle.xc_ctl.specs.Trees.{is_tree_in};
ghost use Rattle.xc_formula_text.specs.Deciding.{tree_table, row_table, tables_in, HasRead};

use crate::printer::text_of;
use std::alloc::Global;
use xc_base::{Counted, FileFault, Lexeme, Lines, List, Stop};
use xc_ctl::{Formula, Kind, Tree, Vocabulary, nodes_of, tree_size};
use xc_formula::parse_formula;
use xc_resolved::resolve;

/// How many nodes a formula may have, how many bytes its text, and how many formulas a file.
const NODE_LIMIT: usize = 256;

const TEXT_LIMIT: usize = 4000;

const FORMULA_LIMIT: usize = 64;

/// The table of a formula that is written out, after so many others.
#[tactic(auto, using(std::proofs::lemmas::Grind::common_steps, xc_ctl::proofs::TreeTables::tree_is_table))]
fn tree_table(
    alloc: Global,
    tree: &Tree,
    vocabulary: &Vocabulary,
    before: usize,
    line: u32,
) -> Result<List<Kind>, Stop>
    requires size { size_of (tree_of tree.now) ≤ 18446744073709551615 }
    requires range { is_tree_in (total (sizes_of vocabulary.now.parts.now)) (length vocabulary.now.props.now) (tree_of tree.now) ≡ true }
    requires before { before ≤ 64 }
    ensures gives { Gives result (tree_table (signature vocabulary.now) before line (tree_of tree.now)) }
    ensures table { IfOk result (λ nodes. is_table nodes ≡ true) }
    ensures few { IfOk result (λ nodes. before < 64) }
{
    let count = |what, found: usize| {
        let found = found as u64;
        Err(Stop::File(FileFault::Count { line, what, found }))
    };
    let nodes = tree_size(tree);
    if nodes > NODE_LIMIT {
        return count(Counted::Nodes, nodes);
    }
    let text = text_of(alloc, tree, vocabulary)?.len();
    if text > TEXT_LIMIT {
        return count(Counted::Text, text);
    }
    if before >= FORMULA_LIMIT {
        return count(Counted::Formulas, before + 1);
    }
    Ok(nodes_of(alloc, tree)?)
}

/// The table of the formula that a row with these tokens is, after so many others.
#[tactic(auto, using(std::proofs::lemmas::Grind::common_steps, xc_resolved::proofs::Sizes::formula_size, crate::proofs::Ranges::tree_in_range), unfolding(crate::specs::Deciding::row_table))]
fn row_table(
    alloc: Global,
    vocabulary: &Vocabulary,
    before: usize,
    line: u32,
    tokens: &[Lexeme],
) -> Result<List<Kind>, Stop>
    requires { before ≤ 64 }
    ensures gives { Gives result
        (row_table (signature vocabulary.now) before (record { number = line; tokens = texts tokens.now })) }
    ensures table { IfOk result (λ nodes. is_table nodes ≡ true) }
    ensures few { IfOk result (λ nodes. before < 64) }
{
    let Some(phrase) = parse_formula(alloc, tokens)? else {
        return Err(Stop::File(FileFault::NoStatement { line }));
    };
    let Some(tree) = resolve(alloc, &phrase, vocabulary)? else {
        return Err(Stop::File(FileFault::Unknown { line }));
    };
    tree_table(alloc, &tree, vocabulary, before, line)
}

/// The same of the row at a place.
fn next_table(
    alloc: Global,
    vocabulary: &Vocabulary,
    before: usize,
    lines: &Lines,
    row: usize,
) -> Result<List<Kind>, Stop>
    requires before { before ≤ 64 }
    requires row { row < length lines.now.rows }
    ensures gives { Gives result (row_table (signature vocabulary.now) before (row_at (rows_in lines.now) row)) }
    ensures table { IfOk result (λ nodes. is_table nodes ≡ true) }
    ensures few { IfOk result (λ nodes. before < 64) }
{
    let tokens = lines.lexemes(alloc, row)?;
    row_table(
        alloc,
        vocabulary,
        before,
        lines.number(row),
        tokens.as_slice(),
    )
}

/// The formulas on all rows.
#[tactic(auto, using(std::proofs::lemmas::Grind::common_steps, crate::proofs::Reading::row_steps))]
pub(crate) fn read_rows(
    alloc: Global,
    vocabulary: &Vocabulary,
    lines: &Lines,
) -> Result<List<Formula>, Stop>
    ensures ok { IfOk result (λ fs. HasRead (signature vocabulary.now) (rows_in lines.now) (length (rows_in lines.now)) (tables_in fs)) }
    ensures err { IfErr result (IsStop (signature vocabulary.now) (rows_in lines.now)) }
{
    let mut formulas = List::new(alloc);
    for row in 0..lines.len() {
        let nodes = next_table(alloc, vocabulary, formulas.len(), lines, row)?;
        formulas.push(Formula::of(nodes))?;
    }
    Ok(formulas)
}
