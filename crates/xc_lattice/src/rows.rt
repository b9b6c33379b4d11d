ghost use Rattle.std.specs.Prelude.{◌≡◌, ◌<◌, [], length};
ghost use Rattle.xc_base.specs.Deciding.{Gives, line_of, statements_of, file_of};
ghost use Rattle.xc_base.specs.Lines.{texts, rows_in, row_at};
ghost use Rattle.xc_lattice.specs.LatticeFiles.{lattice_format};
ghost use Rattle.xc_lattice.specs.Deciding.{decide};

use crate::decide::decide;
use crate::gather::missing;
use crate::judge::judge;
use crate::statement::Statement;
use std::alloc::Global;
use xc_base::{FileFault, Lexeme, Lines, List, Stop};

/// The statement of a row after the statements before it, or the row's fault.
#[tactic(auto, unfolding(xc_base::specs::Deciding::line_of))]
fn read_row(
    alloc: Global,
    before: &List<Statement>,
    line: u32,
    tokens: &[Lexeme],
) -> Result<Statement, Stop>
    ensures { Gives result
        (line_of lattice_format decide before.now (record { number = line; tokens = texts tokens.now })) }
{
    let Some(s) = decide(alloc, before, tokens)? else {
        return Err(Stop::File(FileFault::NoStatement { line }));
    };
    match judge(before.as_slice(), &s, line) {
        Some(fault) => Err(Stop::File(fault)),
        None => Ok(s),
    }
}

/// The same of the row at a place.
fn next_statement(
    alloc: Global,
    before: &List<Statement>,
    lines: &Lines,
    row: usize,
) -> Result<Statement, Stop>
    requires { row < length lines.now.rows }
    ensures { Gives result (line_of lattice_format decide before.now (row_at (rows_in lines.now) row)) }
{
    let tokens = lines.lexemes(alloc, row)?;
    read_row(alloc, before, lines.number(row), tokens.as_slice())
}

/// The statements of all rows, or the fault of the first row that has one.
#[tactic(auto, using(crate::proofs::Reading::rest_after, crate::proofs::Reading::stops_at, crate::proofs::Reading::rest_ends))]
fn read_rows(alloc: Global, lines: &Lines) -> Result<List<Statement>, Stop>
    ensures { Gives result (statements_of lattice_format decide [] (rows_in lines.now)) }
{
    let mut statements = List::new(alloc);
    for row in 0..lines.len() {
        let s = next_statement(alloc, &statements, lines, row)?;
        statements.push(s)?;
    }
    Ok(statements)
}

/// The statements of a whole file, or its first fault.
#[tactic(auto, unfolding(xc_base::specs::Deciding::file_of))]
pub(crate) fn read_statements(alloc: Global, lines: &Lines) -> Result<List<Statement>, Stop>
    ensures { Gives result (file_of lattice_format decide (rows_in lines.now)) }
{
    let statements = read_rows(alloc, lines)?;
    match missing(alloc, statements.as_slice())? {
        Some(part) => Err(Stop::File(FileFault::Missing { part })),
        None => Ok(statements),
    }
}
