ghost use Rattle.std.specs.Prelude.{◌≡◌, ◌&&◌, []};
ghost use Rattle.std.specs.List.{list_any};
ghost use Rattle.std.specs.Str.{bytes_eq};
ghost use Rattle.xc_base.specs.Deciding.{statement_fault, excess_fault};
ghost use Rattle.xc_lattice.specs.LatticeFiles.{element_names, negates, is_repeated, is_unknown, element_excess, lattice_format};
ghost use Rattle.xc_base.specs.Names.{is_among, has_twice};

use crate::statement::Statement;
use xc_base::{Counted, FileFault, Word, has_twice, is_among};

/// Whether two words are the same.
pub(crate) fn is_same(word: &Word, other: &Word) -> bool
    ensures { result ≡ bytes_eq word.now other.now }
{
    word.as_str() == other.as_str()
}

/// The names of the first statement on elements, and none where there is no such statement.
#[tactic(auto, using(crate::proofs::Names::elements_from))]
pub(crate) fn element_names(statements: &[Statement]) -> &[Word]
    ensures { result.now ≡ element_names statements.now }
{
    for s in statements {
        if let Statement::Elements(names) = s {
            return names.as_slice();
        }
    }
    &[]
}

fn negates(name: &Word, s: &Statement) -> bool
    ensures { result ≡ negates name.now s.now }
{
    match s {
        Statement::Not(element, _) => is_same(name, element),
        _ => false,
    }
}

/// Whether a statement gives the negation of the element of that name.
pub(crate) fn is_negated(statements: &[Statement], name: &Word) -> bool
    ensures { result ≡ list_any (negates name.now) statements.now }
{
    statements.iter().any(|s| negates(name, s))
}

fn is_repeated(before: &[Statement], s: &Statement) -> bool
    ensures { result ≡ is_repeated before.now s.now }
{
    match s {
        Statement::Elements(names) => has_twice(names.as_slice()),
        Statement::Not(element, _) => is_negated(before, element),
        _ => false,
    }
}

fn are_known(before: &[Statement], first: &Word, second: &Word) -> bool
    ensures { result ≡ (is_among (element_names before.now) first.now && is_among (element_names before.now) second.now) }
{
    let names = element_names(before);
    is_among(names, first.as_str().as_bytes()) && is_among(names, second.as_str().as_bytes())
}

fn is_unknown(before: &[Statement], s: &Statement) -> bool
    ensures { result ≡ is_unknown before.now s.now }
{
    match s {
        Statement::Below(low, high) => !are_known(before, low, high),
        Statement::Not(element, negated) => !are_known(before, element, negated),
        _ => false,
    }
}

fn count_fault(s: &Statement, line: u32) -> Option<FileFault>
    ensures { result ≡ excess_fault line (element_excess [] s.now) }
{
    match s {
        Statement::Elements(names) if names.len() < 2 || names.len() > 64 => Some(
            FileFault::Count {
                line,
                what: Counted::Elements,
                found: names.len() as u64,
            },
        ),
        _ => None,
    }
}

/// The fault of a statement that is due after those before it and stands on that line.
#[tactic(auto, using(crate::proofs::Names::excess_anywhere), unfolding(xc_base::specs::Deciding::statement_fault))]
pub(crate) fn judge(before: &[Statement], s: &Statement, line: u32) -> Option<FileFault>
    ensures { result ≡ statement_fault lattice_format before.now line s.now }
{
    if is_repeated(before, s) {
        Some(FileFault::Repeated { line })
    } else if is_unknown(before, s) {
        Some(FileFault::Unknown { line })
    } else {
        count_fault(s, line)
    }
}
