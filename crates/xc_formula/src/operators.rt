//! What operators and brackets make of formulas.

ghost use Rattle.std.specs.Prelude.{◌≡◌, IfOk};
ghost use Rattle.std.specs.Option.{option_map};
ghost use Rattle.xc_formula.specs.Written.{And, Or};
ghost use Rattle.xc_formula.specs.FormulaReading.{written, front_of, applied, closed, until_closed, implying};

use crate::phrase::{Parsed, Phrase};
use crate::prefix::{Paths, Prefix};
use std::alloc::Global;
use xc_base::{Memory, behind};

/// With the prefix before it.
pub(crate) fn applied<'t, 'a>(
    alloc: Global,
    prefix: Prefix,
    parsed: Option<Parsed<'t, 'a>>,
) -> Result<Option<Parsed<'t, 'a>>, Memory>
    ensures { IfOk result
        (λ p. option_map front_of p ≡ applied prefix (option_map front_of parsed.entry)) }
{
    match parsed {
        Some(p) => Ok(Some(Parsed {
            phrase: Phrase::Prefixed(prefix, Box::new(alloc, p.phrase)?),
            rest: p.rest,
        })),
        None => Ok(None),
    }
}

/// With `)` behind it, which is taken off.
pub(crate) fn closed<'t, 'a>(parsed: Option<Parsed<'t, 'a>>) -> Option<Parsed<'t, 'a>>
    ensures { option_map front_of result ≡ closed (option_map front_of parsed.entry) }
{
    let p = parsed?;
    let rest = behind(p.rest, b")")?;
    Some(Parsed {
        phrase: p.phrase,
        rest,
    })
}

/// With a first formula before it and `]` behind it, which is taken off.
pub(crate) fn until_closed<'t, 'a>(
    alloc: Global,
    paths: Paths,
    left: Phrase<'a>,
    right: Option<Parsed<'t, 'a>>,
) -> Result<Option<Parsed<'t, 'a>>, Memory>
    ensures { IfOk result
        (λ p. option_map front_of p ≡ until_closed paths (written left.entry) (option_map front_of right.entry)) }
{
    let Some(p) = right else {
        return Ok(None);
    };
    let Some(rest) = behind(p.rest, b"]") else {
        return Ok(None);
    };
    Ok(Some(Parsed {
        phrase: Phrase::Until(paths, Box::new(alloc, left)?, Box::new(alloc, p.phrase)?),
        rest,
    }))
}

/// Both.
pub(crate) fn and<'a>(
    alloc: Global,
    left: Phrase<'a>,
    right: Phrase<'a>,
) -> Result<Phrase<'a>, Memory>
    ensures { IfOk result (λ phrase. written phrase ≡ And (written left.entry) (written right.entry)) }
{
    Ok(Phrase::And(Box::new(alloc, left)?, Box::new(alloc, right)?))
}

/// At least one.
pub(crate) fn or<'a>(
    alloc: Global,
    left: Phrase<'a>,
    right: Phrase<'a>,
) -> Result<Phrase<'a>, Memory>
    ensures { IfOk result (λ phrase. written phrase ≡ Or (written left.entry) (written right.entry)) }
{
    Ok(Phrase::Or(Box::new(alloc, left)?, Box::new(alloc, right)?))
}

/// The left formula before `->`, and the right one behind it.
pub(crate) fn implying<'t, 'a>(
    alloc: Global,
    left: Phrase<'a>,
    right: Option<Parsed<'t, 'a>>,
) -> Result<Option<Parsed<'t, 'a>>, Memory>
    ensures { IfOk result
        (λ p. option_map front_of p ≡ implying (written left.entry) (option_map front_of right.entry)) }
{
    match right {
        Some(p) => Ok(Some(Parsed {
            phrase: Phrase::Implies(Box::new(alloc, left)?, Box::new(alloc, p.phrase)?),
            rest: p.rest,
        })),
        None => Ok(None),
    }
}
