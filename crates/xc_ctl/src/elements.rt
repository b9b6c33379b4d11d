//! Elements of a product, by the names of their digits.

ghost use Rattle.std.specs.Prelude.{◌≡◌, ◌<◌, ◌≤◌, true, length, IfSome};
ghost use Rattle.std.specs.List.{list_all};
ghost use Rattle.xc_theory.specs.Codes.{total};
ghost use Rattle.xc_base.specs.Lines.{texts};
ghost use Rattle.xc_base.specs.Names.{name_at};
ghost use Rattle.xc_ctl.specs.Trees.{is_part, sizes_of, element_named};
ghost use Rattle.xc_ctl.specs.Resolving.{part_at, digit_at, total_from};

use xc_base::{Lexeme, List, Word, find_name};

/// The names of the part at a place.
pub fn part_at(parts: &List<List<Word>>, place: usize) -> &[Word]
    requires { place < length parts.now }
    ensures { result.now ≡ part_at parts.now place }
{
    parts.get(place).as_slice()
}

/// How many elements the part at a place has.
#[tactic(auto, using(std::proofs::lemmas::Grind::common_steps, crate::proofs::ElementCodes::part_some, crate::proofs::ElementCodes::part_few))]
fn size_at(parts: &List<List<Word>>, place: usize) -> u16
    requires fit { list_all is_part parts.now ≡ true }
    requires range { place < length parts.now }
    ensures is { result ≡ length (part_at parts.now place) }
    ensures some { 2 ≤ result }
    ensures few { result ≤ 64 }
{
    part_at(parts, place).len() as u16
}

/// How many elements the parts from a place on have together.
#[tactic(auto, using(std::proofs::lemmas::Grind::common_steps, crate::proofs::ElementCodes::total_none, crate::proofs::ElementCodes::total_stepped, crate::proofs::ElementCodes::stepped_fits, crate::proofs::ElementCodes::total_some))]
pub fn total_from(parts: &List<List<Word>>, place: usize) -> u16
    requires fit { list_all is_part parts.now ≡ true }
    requires few { total (sizes_of parts.now) ≤ 4096 }
    requires range { place ≤ length parts.now }
    ensures is { result ≡ total_from parts.now place }
    ensures some { 1 ≤ result }
{
    let mut total = 1;
    for k in (place..parts.len()).rev() {
        total *= size_at(parts, k);
    }
    total
}

/// The text at a place.
fn text_at<'a>(values: &[Lexeme<'a>], place: usize) -> &'a [u8]
    requires { place < length values.now }
    ensures { result.now ≡ name_at (texts values.now) place }
{
    values[place].text
}

/// Where the name at a place stands in the part at that place.
#[tactic(auto, using(std::proofs::lemmas::Grind::common_steps, xc_base::proofs::Naming::found_in_range, crate::proofs::ElementCodes::part_few), unfolding(crate::specs::Resolving::digit_at))]
fn digit_at(parts: &List<List<Word>>, values: &[Lexeme], place: usize) -> Option<u16>
    requires fit { list_all is_part parts.now ≡ true }
    requires part { place < length parts.now }
    requires value { place < length values.now }
    ensures is { result ≡ digit_at parts.now (texts values.now) place }
    ensures range { IfSome result (λ d. d < length (part_at parts.now place)) }
{
    match find_name(part_at(parts, place), text_at(values, place)) {
        Some(digit) => Some(digit as u16),
        None => None,
    }
}

/// The element with these names as its digits, one of each part.
#[tactic(auto, using(std::proofs::lemmas::Grind::common_steps, crate::proofs::ElementCodes::element_steps))]
pub fn element(parts: &List<List<Word>>, values: &[Lexeme]) -> Option<u16>
    requires fit { list_all is_part parts.now ≡ true }
    requires few { total (sizes_of parts.now) ≤ 4096 }
    ensures { result ≡ element_named parts.now (texts values.now) }
{
    if values.len() != parts.len() {
        return None;
    }
    let mut code = 0;
    for place in 0..parts.len() {
        let Some(digit) = digit_at(parts, values, place) else {
            return None;
        };
        code = code * size_at(parts, place) + digit;
    }
    Some(code)
}
