//! The operators that stand before a formula.

ghost use Rattle.std.specs.Prelude.{◌≡◌};
ghost use Rattle.xc_formula.specs.FormulaReading.{prefix_in, paths_in};

/// What stands before a formula.
#[derive(Clone, Copy, Debug)]
pub enum Prefix {
    Negation,
    SomeNext,
    AllNext,
    SomeFinally,
    AllFinally,
    SomeGlobally,
    AllGlobally,
}

/// Of which paths two formulas in brackets speak.
#[derive(Clone, Copy, Debug)]
pub enum Paths {
    SomePath,
    EveryPath,
}

/// The prefix that a token is, where it is one.
pub(crate) fn prefix_in(token: &[u8]) -> Option<Prefix>
    ensures { result ≡ prefix_in token.now }
{
    if token == b"!".as_slice() {
        Some(Prefix::Negation)
    } else if token == b"EX".as_slice() {
        Some(Prefix::SomeNext)
    } else if token == b"AX".as_slice() {
        Some(Prefix::AllNext)
    } else if token == b"EF".as_slice() {
        Some(Prefix::SomeFinally)
    } else if token == b"AF".as_slice() {
        Some(Prefix::AllFinally)
    } else if token == b"EG".as_slice() {
        Some(Prefix::SomeGlobally)
    } else if token == b"AG".as_slice() {
        Some(Prefix::AllGlobally)
    } else {
        None
    }
}

/// What a token before `[` says.
pub(crate) fn paths_in(token: &[u8]) -> Option<Paths>
    ensures { result ≡ paths_in token.now }
{
    if token == b"E".as_slice() {
        Some(Paths::SomePath)
    } else if token == b"A".as_slice() {
        Some(Paths::EveryPath)
    } else {
        None
    }
}
