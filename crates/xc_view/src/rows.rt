ghost use Rattle.std.specs.Prelude.{◌≡◌, ◌<◌, ◌≤◌, true, [], length, IfOk, IfSome};
ghost use Rattle.std.specs.Option.{option_map};
ghost use Rattle.xc_base.specs.Deciding.{line_of, statements_of, file_of};
ghost use Rattle.xc_base.specs.Lines.{texts, rows_in, row_at};
ghost use Rattle.xc_view.specs.ViewFiles.{is_due, missing_part, view_format};
ghost use Rattle.xc_view.specs.Deciding.{decide};
ghost use Rattle.xc_view_lines.specs.Statements.{stated, GivesAs};
ghost use Rattle.xc_view.specs.Drafts.{all_stated, is_placed};
ghost use Rattle.xc_view.specs.Drafted.{drafted};

use crate::draft::Draft;
use crate::due::is_due;
use crate::judge::{has_init, judge};
use std::alloc::Global;
use xc_base::{FileFault, Lexeme, Lines, Memory, Part, Stop};
use xc_view_lines::{Statement, line};

/// Whether there is a statement, and it is due after those of a draft.
fn is_placed(draft: &Draft, s: &Option<Statement>) -> bool
    ensures { result ≡ is_placed (all_stated draft.now.statements) (option_map stated s.now) }
{
    match s {
        Some(s) => is_due(draft, s),
        None => false,
    }
}

/// The statement that a row of these tokens is after those of a draft, where it is one.
#[tactic(auto, using(crate::proofs::Placing::decided, crate::proofs::Placing::undecided, crate::proofs::Placing::placed_is_due))]
fn decide<'a>(
    alloc: Global,
    draft: &Draft,
    tokens: &[Lexeme<'a>],
) -> Result<Option<Statement<'a>>, Memory>
    ensures decided { IfOk result
        (λ s. option_map stated s ≡ decide (all_stated draft.now.statements) (texts tokens.now)) }
    ensures due { IfOk result
        (λ s. IfSome s (λ t. is_due (all_stated draft.now.statements) (stated t) ≡ true)) }
{
    let s = line(alloc, tokens)?;
    if is_placed(draft, &s) {
        Ok(s)
    } else {
        Ok(None)
    }
}

/// The statement of a row after those of a draft, or the row's fault.
#[tactic(auto, unfolding(xc_base::specs::Deciding::line_of))]
fn read_row<'a>(
    alloc: Global,
    draft: &Draft,
    number: u32,
    tokens: &[Lexeme<'a>],
) -> Result<Statement<'a>, Stop>
    ensures { GivesAs stated result
        (line_of view_format decide (all_stated draft.now.statements) (record { number = number; tokens = texts tokens.now })) }
{
    let Some(s) = decide(alloc, draft, tokens)? else {
        return Err(Stop::File(FileFault::NoStatement { line: number }));
    };
    match judge(alloc, draft, &s, number)? {
        Some(fault) => Err(Stop::File(fault)),
        None => Ok(s),
    }
}

/// The same of the row at a place.
fn next_statement<'a>(
    alloc: Global,
    draft: &Draft,
    lines: &Lines<'a>,
    row: usize,
) -> Result<Statement<'a>, Stop>
    requires { row < length lines.now.rows }
    ensures { GivesAs stated result
        (line_of view_format decide (all_stated draft.now.statements) (row_at (rows_in lines.now) row)) }
{
    let tokens = lines.lexemes(alloc, row)?;
    read_row(alloc, draft, lines.number(row), tokens.as_slice())
}

/// The statements of all rows, or the fault of the first row that has one.
#[tactic(auto, using(crate::proofs::Reading::row_after, crate::proofs::Reading::stops_at, crate::proofs::Reading::rest_ends))]
fn read_rows<'a>(alloc: Global, lines: &Lines<'a>) -> Result<Draft<'a>, Stop>
    ensures { GivesAs drafted result (statements_of view_format decide [] (rows_in lines.now)) }
{
    let mut draft = Draft::new(alloc);
    for row in 0..lines.len() {
        let s = next_statement(alloc, &draft, lines, row)?;
        draft = draft.with(alloc, s)?;
    }
    Ok(draft)
}

#[tactic(auto, using(crate::proofs::Stated::var_lacks, crate::proofs::Stated::init_lacks, crate::proofs::Stated::none_lacks))]
fn missing_late(draft: &Draft) -> Option<Part>
    requires { 2 ≤ length draft.now.statements }
    ensures { result ≡ missing_part (all_stated draft.now.statements) }
{
    if draft.vars.len() == 0 {
        Some(Part::Var)
    } else if has_init(draft.statements.as_slice()) {
        None
    } else {
        Some(Part::Init)
    }
}

/// The first part that a file of a draft's statements lacks.
fn missing(draft: &Draft) -> Option<Part>
    ensures { result ≡ missing_part (all_stated draft.now.statements) }
{
    match draft.statements.as_slice() {
        [] => Some(Part::Head),
        [_] => Some(Part::Lattice),
        _ => missing_late(draft),
    }
}

/// The statements of a whole file, or its first fault.
#[tactic(auto, unfolding(xc_base::specs::Deciding::file_of))]
pub(crate) fn read_statements<'a>(alloc: Global, lines: &Lines<'a>) -> Result<Draft<'a>, Stop>
    ensures { GivesAs drafted result (file_of view_format decide (rows_in lines.now)) }
{
    let draft = read_rows(alloc, lines)?;
    match missing(&draft) {
        Some(part) => Err(Stop::File(FileFault::Missing { part })),
        None => Ok(draft),
    }
}
