//! The views.

ghost use Rattle.std.specs.Prelude.{◌≡◌, ◌++◌, ◌≤◌, [], ◌∷◌, IfOk, OnOk, codes};
ghost use Rattle.std.specs.List.{flat_map, range_with_len};
ghost use Rattle.std.specs.Fmt.{decimal};
ghost use Rattle.xc_gen.specs.Generated.{line, name_of, lattice_of, weight, bit as bit_text, has_value, is_lowest, command_line, view_text};

use crate::pieces::{push_lowest, push_number, push_phrase, push_piece, push_vars};
use crate::side::Side;
use std::alloc::Global;
use xc_base::{Bytes, List, Memory};

// Appends the lines of a viewpoint and its lattice.
fn push_viewpoint(text: &mut Bytes, side: Side) -> Result<(), Memory>
    ensures { OnOk result (text.new ≡ text.old ++ line (codes "view " ++ name_of side) ++ line (codes "lattice " ++ lattice_of side)) }
{
    push_piece(text, "view ")?;
    push_piece(text, side.name())?;
    push_piece(text, "\nlattice ")?;
    push_piece(text, side.lattice())?;
    push_piece(text, "\n")
}

// Appends the line by which that bit and all lower ones are 0 at first.
fn push_init(alloc: Global, text: &mut Bytes, last: u32) -> Result<(), Memory>
    ensures { OnOk result (text.new ≡ text.old ++ line (codes "init " ++ is_lowest last 0)) }
{
    push_piece(text, "init ")?;
    push_lowest(alloc, text, last, 0)?;
    push_piece(text, "\n")
}

// Appends the line of the proposition that this bit is 1.
fn push_prop(alloc: Global, text: &mut Bytes, last: u32) -> Result<(), Memory>
    ensures { OnOk result (text.new ≡ text.old ++ line (codes "prop last T when " ++ has_value last 1)) }
{
    push_piece(text, "prop last T when ")?;
    push_phrase(alloc, text, last, 1)?;
    push_piece(text, "\n")
}

// Appends the name and the element of a command, up to its guard.
fn push_named(
    alloc: Global,
    text: &mut Bytes,
    side: Side,
    number: u32,
    bit: u32,
) -> Result<(), Memory>
    ensures { OnOk result (text.new ≡ text.old ++ codes "command set" ++ decimal bit ++ codes " with " ++ weight side number bit ++ codes " when ") }
{
    push_number(alloc, text, "command set", bit)?;
    push_piece(text, " with ")?;
    push_piece(text, side.weight(number, bit))?;
    push_piece(text, " when ")
}

// Appends what a command does.
fn push_action(alloc: Global, text: &mut Bytes, bit: u32) -> Result<(), Memory>
    ensures { OnOk result (text.new ≡ text.old ++ codes " do " ++ bit_text bit ++ codes ":=1" ++ 10 ∷ []) }
{
    push_number(alloc, text, " do b", bit)?;
    push_piece(text, ":=1\n")
}

// Appends the command that sets a bit.
fn push_command(
    alloc: Global,
    text: &mut Bytes,
    side: Side,
    number: u32,
    bit: u32,
) -> Result<(), Memory>
    ensures { OnOk result (text.new ≡ text.old ++ command_line side number bit) }
{
    push_named(alloc, text, side, number, bit)?;
    push_lowest(alloc, text, bit, 1)?;
    push_action(alloc, text, bit)
}

// Appends the commands that set that many bits.
#[tactic(auto, using(std::proofs::lemmas::Grind::common_steps, crate::proofs::Rows::line_pushed))]
fn push_commands(
    alloc: Global,
    text: &mut Bytes,
    side: Side,
    number: u32,
    size: u32,
) -> Result<(), Memory>
    ensures { OnOk result (text.new ≡ text.old ++ flat_map (command_line side number) (range_with_len 0 size)) }
{
    for bit in 0..size {
        push_command(alloc, text, side, number, bit)?;
    }
    Ok(())
}

/// The text of a viewpoint's view.
#[tactic(auto, unfolding(crate::specs::Generated::view_text))]
pub(crate) fn view_text(alloc: Global, side: Side, number: u32, size: u32) -> Result<Bytes, Memory>
    requires { 1 ≤ size }
    ensures { IfOk result (λ text. text ≡ view_text side number size) }
{
    let last = size - 1;
    let mut text = List::new(alloc);
    push_viewpoint(&mut text, side)?;
    push_vars(alloc, &mut text, size)?;
    push_init(alloc, &mut text, last)?;
    push_prop(alloc, &mut text, last)?;
    push_commands(alloc, &mut text, side, number, size)?;
    Ok(text)
}
