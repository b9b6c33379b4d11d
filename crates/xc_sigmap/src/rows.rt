ghost use Rattle.std.specs.Prelude.{◌≡◌, ◌<◌, true, [], length, IfOk, IfSome, Some};
ghost use Rattle.xc_base.specs.Deciding.{line_of, statements_of, file_of, Gives};
ghost use Rattle.xc_base.specs.Lines.{texts, rows_in, row_at};
ghost use Rattle.xc_sigmap_lines.specs.MapFiles.{is_due, missing_part, map_format};
ghost use Rattle.xc_sigmap_lines.specs.Deciding.{decide, placed};
ghost use Rattle.xc_sigmap.specs.Drafts.{GivesAs};
ghost use Rattle.xc_sigmap.specs.Kept.{drafted};

use crate::draft::Draft;
use crate::due::is_due;
use crate::judge::judge;
use std::alloc::Global;
use xc_base::{FileFault, Lexeme, Lines, Memory, Part, Stop};
use xc_sigmap_lines::{Statement, line};

/// The statement, where it is due after those of a draft.
fn if_due(draft: &Draft, s: Statement) -> Option<Statement>
    ensures { result ≡ placed draft.now.statements (Some s) }
{
    if is_due(draft, &s) { Some(s) } else { None }
}

/// The statement that a row of these tokens is after those of a draft, where it is one.
#[tactic(auto, unfolding(xc_sigmap_lines::specs::Deciding::decide))]
fn decide(alloc: Global, draft: &Draft, tokens: &[Lexeme]) -> Result<Option<Statement>, Memory>
    ensures { IfOk result (λ s. s ≡ decide draft.now.statements (texts tokens.now)) }
{
    match line(alloc, tokens)? {
        Some(s) => Ok(if_due(draft, s)),
        None => Ok(None),
    }
}

/// The statement of a row after those of a draft, or the row's fault.
#[tactic(auto, unfolding(xc_base::specs::Deciding::line_of))]
fn read_row(alloc: Global, draft: &Draft, number: u32, tokens: &[Lexeme]) -> Result<Statement, Stop>
    ensures { Gives result
        (line_of map_format decide draft.now.statements (record { number = number; tokens = texts tokens.now })) }
{
    let Some(s) = decide(alloc, draft, tokens)? else {
        return Err(Stop::File(FileFault::NoStatement { line: number }));
    };
    match judge(draft, &s, number) {
        Some(fault) => Err(Stop::File(fault)),
        None => Ok(s),
    }
}

/// The same of the row at a place.
fn next_statement(
    alloc: Global,
    draft: &Draft,
    lines: &Lines,
    row: usize,
) -> Result<Statement, Stop>
    requires { row < length lines.now.rows }
    ensures { Gives result (line_of map_format decide draft.now.statements (row_at (rows_in lines.now) row)) }
{
    let tokens = lines.lexemes(alloc, row)?;
    read_row(alloc, draft, lines.number(row), tokens.as_slice())
}

/// The statements of all rows, or the fault of the first row that has one.
#[tactic(auto, using(crate::proofs::Reading::rest_after, crate::proofs::Reading::stops_at, crate::proofs::Reading::rest_ends))]
fn read_rows(alloc: Global, lines: &Lines) -> Result<Draft, Stop>
    ensures { GivesAs drafted result (statements_of map_format decide [] (rows_in lines.now)) }
{
    let mut draft = Draft::new(alloc);
    for row in 0..lines.len() {
        let s = next_statement(alloc, &draft, lines, row)?;
        draft = draft.with(alloc, s)?;
    }
    Ok(draft)
}

/// The first part that a file of a draft's statements lacks.
#[tactic(auto, using(crate::proofs::Following::part_missing))]
fn missing(draft: &Draft) -> Option<Part>
    ensures { result ≡ missing_part draft.now.statements }
{
    if draft.statements.len() == 0 {
        Some(Part::Head)
    } else if draft.names.uses.len() == 0 {
        Some(Part::Uses)
    } else if draft.names.vars.len() == 0 {
        Some(Part::Var)
    } else {
        None
    }
}

/// The statements of a whole file, or its first fault.
#[tactic(auto, unfolding(xc_base::specs::Deciding::file_of))]
pub(crate) fn read_statements(alloc: Global, lines: &Lines) -> Result<Draft, Stop>
    ensures { GivesAs drafted result (file_of map_format decide (rows_in lines.now)) }
{
    let draft = read_rows(alloc, lines)?;
    match missing(&draft) {
        Some(part) => Err(Stop::File(FileFault::Missing { part })),
        None => Ok(draft),
    }
}
