ghost use Rattle.std.specs.Prelude.{◌≡◌, ◌↔◌, IsTrue, IsNone, map, string_bytes};
ghost use Rattle.case_texts.specs.Expectations.{Meets, IsAsExpected};

use crate::case::{Expectation, Expected, Ran};

/// What of a run is not as expected.
#[derive(Clone, Copy)]
pub enum Difference {
    Status,
    Out,
    Err,
    Failed,
    Loads,
}

/// Whether bytes are as expected.
fn meets(expectation: &Expectation, bytes: &[u8]) -> bool
    ensures { IsTrue result ↔ Meets expectation.now bytes.now }
{
    match expectation {
        Expectation::Whole(text) => bytes == text.as_slice(),
        Expectation::PartOf(text) => {
            text.as_slice().starts_with(bytes) && bytes.len() < text.len()
        }
        Expectation::BeginsWith(text) => bytes.starts_with(text.as_slice()),
    }
}

/// Whether two lists of names are the same.
#[tactic(auto, using(crate::proofs::Names::same_names))]
fn are_same(left: &[String], right: &[String]) -> bool
    ensures { IsTrue result ↔ (map string_bytes left.now ≡ map string_bytes right.now) }
{
    left == right
}

/// The first part of a run that is not as expected.
pub fn first_difference(expected: &Expected, ran: &Ran) -> Option<Difference>
    ensures { IsNone result ↔ IsAsExpected expected.now ran.now }
{
    if ran.ending != expected.ending {
        return Some(Difference::Status);
    }
    if !meets(&expected.out, ran.out.as_slice()) {
        return Some(Difference::Out);
    }
    if !meets(&expected.err, ran.err.as_slice()) {
        return Some(Difference::Err);
    }
    if !are_same(ran.failed.as_slice(), expected.failed.as_slice()) {
        return Some(Difference::Failed);
    }
    match &expected.loads {
        Some(names) if !are_same(ran.loads.as_slice(), names.as_slice()) => Some(Difference::Loads),
        _ => None,
    }
}
