//! The pieces that lines are made of.

ghost use Rattle.std.specs.Prelude.{◌≡◌, ◌++◌, OnOk, codes};
ghost use Rattle.std.specs.List.{flat_map, range_with_len};
ghost use Rattle.std.specs.Fmt.{decimal};
ghost use Rattle.xc_gen.specs.Generated.{has_value, is_lowest, var_line};

use std::alloc::Global;
use xc_base::{Bytes, Memory};

/// Appends a piece.
pub(crate) fn push_piece(text: &mut Bytes, piece: &str) -> Result<(), Memory>
    ensures { OnOk result (text.new ≡ text.old ++ piece.now) }
{
    text.extend(piece.as_bytes())
}

/// Appends a piece and a number.
pub(crate) fn push_number(
    alloc: Global,
    text: &mut Bytes,
    piece: &str,
    number: u32,
) -> Result<(), Memory>
    ensures { OnOk result (text.new ≡ text.old ++ piece.now ++ decimal number) }
{
    let digits = format!(in alloc; "{number}")?;
    push_piece(text, piece)?;
    push_piece(text, digits.as_str())
}

/// Appends the phrase that a bit has that value.
#[tactic(auto, unfolding(crate::specs::Generated::has_value))]
pub(crate) fn push_phrase(
    alloc: Global,
    text: &mut Bytes,
    bit: u32,
    value: u32,
) -> Result<(), Memory>
    ensures { OnOk result (text.new ≡ text.old ++ has_value bit value) }
{
    push_number(alloc, text, "b", bit)?;
    push_number(alloc, text, "=", value)
}

// Appends the phrase that a bit has that value, in front of another one.
fn push_phrase_before(alloc: Global, text: &mut Bytes, bit: u32, value: u32) -> Result<(), Memory>
    ensures { OnOk result (text.new ≡ text.old ++ has_value bit value ++ codes "&") }
{
    push_phrase(alloc, text, bit, value)?;
    push_piece(text, "&")
}

/// Appends the phrase that a bit is 0, and all lower bits have that value.
#[tactic(auto, using(std::proofs::lemmas::Grind::common_steps, crate::proofs::Rows::line_pushed))]
pub(crate) fn push_lowest(
    alloc: Global,
    text: &mut Bytes,
    bit: u32,
    value: u32,
) -> Result<(), Memory>
    ensures { OnOk result (text.new ≡ text.old ++ is_lowest bit value) }
{
    for lower in 0..bit {
        push_phrase_before(alloc, text, lower, value)?;
    }
    push_phrase(alloc, text, bit, 0)
}

// Appends the line that declares a bit.
fn push_var(alloc: Global, text: &mut Bytes, bit: u32) -> Result<(), Memory>
    ensures { OnOk result (text.new ≡ text.old ++ var_line bit) }
{
    push_number(alloc, text, "var b", bit)?;
    push_piece(text, " 0 1\n")
}

/// Appends the lines that declare that many bits.
#[tactic(auto, using(std::proofs::lemmas::Grind::common_steps, crate::proofs::Rows::line_pushed))]
pub(crate) fn push_vars(alloc: Global, text: &mut Bytes, size: u32) -> Result<(), Memory>
    ensures { OnOk result (text.new ≡ text.old ++ flat_map var_line (range_with_len 0 size)) }
{
    for bit in 0..size {
        push_var(alloc, text, bit)?;
    }
    Ok(())
}
