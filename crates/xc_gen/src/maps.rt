//! The map of both views.

ghost use Rattle.std.specs.Prelude.{◌≡◌, ◌++◌, IfOk, OnOk};
ghost use Rattle.std.specs.List.{flat_map, range_with_len};
ghost use Rattle.xc_gen.specs.Generated.{send_line, map_text};

use crate::pieces::{push_number, push_piece, push_vars};
use crate::side::Side;
use std::alloc::Global;
use xc_base::{Bytes, List, Memory};

// Appends the line by which a bit goes to a viewpoint.
fn push_send(alloc: Global, text: &mut Bytes, side: Side, bit: u32) -> Result<(), Memory>
    ensures { OnOk result (text.new ≡ text.old ++ send_line side bit) }
{
    push_piece(text, "send ")?;
    push_piece(text, side.name())?;
    push_number(alloc, text, " b", bit)?;
    push_number(alloc, text, " b", bit)?;
    push_piece(text, "\n")
}

// Appends the lines by which that many bits go to a viewpoint.
#[tactic(auto, using(std::proofs::lemmas::Grind::common_steps, crate::proofs::Rows::line_pushed))]
fn push_sends(alloc: Global, text: &mut Bytes, side: Side, size: u32) -> Result<(), Memory>
    ensures { OnOk result (text.new ≡ text.old ++ flat_map (send_line side) (range_with_len 0 size)) }
{
    for bit in 0..size {
        push_send(alloc, text, side, bit)?;
    }
    Ok(())
}

/// The text of the map.
#[tactic(auto, unfolding(crate::specs::Generated::map_text))]
pub(crate) fn map_text(alloc: Global, size: u32) -> Result<Bytes, Memory>
    ensures { IfOk result (λ text. text ≡ map_text size) }
{
    let mut text = List::new(alloc);
    push_piece(
        &mut text,
        "map gen\nuse left left.view\nuse right right.view\n",
    )?;
    push_vars(alloc, &mut text, size)?;
    push_piece(&mut text, "prop last\n")?;
    push_sends(alloc, &mut text, Side::Left, size)?;
    push_sends(alloc, &mut text, Side::Right, size)?;
    push_piece(&mut text, "tell left last last\ntell right last last\n")?;
    Ok(text)
}
