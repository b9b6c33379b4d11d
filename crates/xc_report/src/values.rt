//! The lines of a formula's values at the initial states.

ghost use Rattle.std.specs.Prelude.{◌≡◌, ◌<◌, ◌∷◌, [], ◌++◌, length, OnOk};
ghost use Rattle.std.specs.List.{flat_map};
ghost use Rattle.xc_theory.specs.Codes.{AreDigits};
ghost use Rattle.xc_alg.specs.Products.{product};
ghost use Rattle.xc_forms.specs.Variables.{sizes_of};
ghost use Rattle.xc_merge.specs.Merges.{parts_of};
ghost use Rattle.xc_merge.specs.Projections.{states_of, row_of};
ghost use Rattle.xc_merge.specs.MergedFrames.{merged_frame, initials_of};
ghost use Rattle.xc_machine.specs.Machines.{merge_of};
ghost use Rattle.xc_ctl.specs.Rounds.{IsTableFor};
ghost use Rattle.xc_report.specs.Reports.{element_text, places_text, value_text};
ghost use Rattle.xc_report.specs.Pieces.{before, digit_text, place_text, state_text};

use crate::pieces::{push_both, push_name, push_number, push_start};
use crate::told::Told;
use std::alloc::Global;
use xc_base::{Bytes, Memory};
use xc_ctl::Rounds;
use xc_forms::{Domain, Vars};
use xc_machine::Machine;
use xc_moves::places_of;

// Appends a variable with the name of its value.
fn push_place(text: &mut Bytes, domain: &Domain, place: u8) -> Result<(), Memory>
    requires { place < length domain.now.values }
    ensures { OnOk result (text.new ≡ text.old ++ place_text domain.now place) }
{
    push_both(text, " ", domain.name.as_str())?;
    push_both(text, "=", domain.values.get(usize::from(place)).as_str())
}

// Appends the variables with the names of their values.
#[tactic(auto, using(crate::proofs::Rows::place_below, crate::proofs::Rows::place_room, crate::proofs::Rows::places_none))]
fn push_places(text: &mut Bytes, vars: &Vars, row: &[u8]) -> Result<(), Memory>
    requires { AreDigits (sizes_of vars.now) row.now }
    ensures { OnOk result (text.new ≡ text.old ++ places_text vars.now row.now) }
{
    for i in 0..vars.len() {
        push_place(text, vars.get(i), row[i])?;
    }
    Ok(())
}

// What stands before the name of a digit.
fn before(part: u8) -> &'static str
    ensures { result.now ≡ before part ∷ [] }
{
    if part == 0 { " " } else { "," }
}

// Appends the name of an element's digit.
fn push_digit(text: &mut Bytes, machine: &Machine, element: u16, part: u8) -> Result<(), Memory>
    requires element { element < (product (parts_of (merge_of machine.now))).size }
    requires part { part < length (merge_of machine.now).viewpoints }
    ensures { OnOk result (text.new ≡ text.old ++ digit_text (merge_of machine.now) element part) }
{
    machine.is_framed();
    let digit = machine.product().digit(element, part);
    push_name(text, machine, before(part), part, digit)
}

// Appends the names of the digits of an element.
#[tactic(auto, using(std::proofs::lemmas::Grind::common_steps, crate::proofs::Rows::line_pushed))]
fn push_element(text: &mut Bytes, machine: &Machine, element: u16) -> Result<(), Memory>
    requires { element < (product (parts_of (merge_of machine.now))).size }
    ensures { OnOk result (text.new ≡ text.old ++ element_text (merge_of machine.now) element) }
{
    for part in 0..machine.viewpoints() {
        push_digit(text, machine, element, part)?;
    }
    Ok(())
}

// Appends the line of a state: its number, the values of its variables, and an element.
fn push_state(
    alloc: Global,
    text: &mut Bytes,
    machine: &Machine,
    marked: bool,
    state: u32,
    row: &[u8],
    element: u16,
) -> Result<(), Memory>
    requires row { AreDigits (sizes_of (merge_of machine.now).plan.vars) row.now }
    requires element { element < (product (parts_of (merge_of machine.now))).size }
    ensures { OnOk result (text.new ≡ text.old ++ state_text marked (merge_of machine.now) state row.now element) }
{
    push_start(text, marked, "value ")?;
    push_number(alloc, text, "", u64::from(state))?;
    push_places(text, machine.map().vars(), row)?;
    push_element(text, machine, element)?;
    text.extend(b"\n")
}

// Appends the value at a state.
fn push_value(
    alloc: Global,
    text: &mut Bytes,
    machine: &Machine,
    marked: bool,
    state: u32,
    element: u16,
) -> Result<(), Memory>
    requires state { state < states_of (merge_of machine.now).plan }
    requires element { element < (product (parts_of (merge_of machine.now))).size }
    ensures { OnOk result (text.new ≡ text.old ++ state_text marked (merge_of machine.now) state (row_of (merge_of machine.now).plan state) element) }
{
    machine.is_framed();
    let vars = machine.map().vars();
    let places = places_of(vars, state);
    let row = &places[..vars.len()];
    push_state(alloc, text, machine, marked, state, row, element)
}

/// Appends the values of a node at the initial states.
pub(crate) fn push_values<T: Rounds>(
    alloc: Global,
    text: &mut Bytes,
    marked: bool,
    told: &Told<T>,
) -> Result<(), Memory>
    requires node { told.now.node < length told.now.nodes.now }
    requires table { IsTableFor (merged_frame (merge_of told.now.machine.now)) told.now.nodes.now (T.table told.now.table.now) }
    ensures { OnOk result (text.new ≡ text.old ++ flat_map (value_text marked (merge_of told.now.machine.now) ((T.table told.now.table.now).at told.now.node)) (initials_of (merge_of told.now.machine.now))) }
{
    for state in told.machine.initials().as_slice() {
        let element = told.table.at(told.node, *state);
        push_value(alloc, text, told.machine, marked, *state, element)?;
    }
    Ok(())
}
