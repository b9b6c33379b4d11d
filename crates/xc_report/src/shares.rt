//! The lines of the viewpoints' shares: which elements they give to a formula's values at the initial states.

ghost use Rattle.std.specs.Prelude.{◌≡◌, ◌<◌, ◌≤◌, ◌++◌, length, OnOk, count_by};
ghost use Rattle.std.specs.List.{flat_map, range_with_len};
ghost use Rattle.xc_alg.specs.Products.{product};
ghost use Rattle.xc_merge.specs.Merges.{parts_of, viewpoint_at};
ghost use Rattle.xc_merge.specs.MergedFrames.{merged_frame, initials_of};
ghost use Rattle.xc_machine.specs.Machines.{merge_of};
ghost use Rattle.xc_ctl.specs.Rounds.{IsTableFor};
ghost use Rattle.xc_report.specs.Reports.{count_text, gives, share_text};

use crate::pieces::{push_name, push_number, push_start};
use crate::told::Told;
use std::alloc::Global;
use xc_base::{Bytes, Memory};
use xc_ctl::Rounds;
use xc_machine::Machine;

// Whether a viewpoint gives that element of its lattice to a value.
fn gives(machine: &Machine, v: u8, element: u8, value: u16) -> bool
    requires viewpoint { v < length (merge_of machine.now).viewpoints }
    requires value { value < (product (parts_of (merge_of machine.now))).size }
    ensures { result ≡ gives (merge_of machine.now) v element value }
{
    machine.product().digit(value, v) == element
}

// At how many initial states a viewpoint gives that element of its lattice to a node.
fn count<T: Rounds>(told: &Told<T>, v: u8, element: u8) -> u32
    requires viewpoint { v < length (merge_of told.now.machine.now).viewpoints }
    requires node { told.now.node < length told.now.nodes.now }
    requires table { IsTableFor (merged_frame (merge_of told.now.machine.now)) told.now.nodes.now (T.table told.now.table.now) }
    ensures { result ≡ count_by (λ s. gives (merge_of told.now.machine.now) v element ((T.table told.now.table.now).at told.now.node s)) (initials_of (merge_of told.now.machine.now)) }
{
    let mut count = 0;
    for state in told.machine.initials().as_slice() {
        if gives(told.machine, v, element, told.table.at(told.node, *state)) {
            count += 1;
        }
    }
    count
}

// Appends an element of a viewpoint's lattice, and at how many initial states the viewpoint gives it to a node.
fn push_count<T: Rounds>(
    alloc: Global,
    text: &mut Bytes,
    told: &Told<T>,
    v: u8,
    element: u8,
) -> Result<(), Memory>
    requires viewpoint { v < length (merge_of told.now.machine.now).viewpoints }
    requires element { element < length (viewpoint_at (merge_of told.now.machine.now) v).lattice.names }
    requires node { told.now.node < length told.now.nodes.now }
    requires table { IsTableFor (merged_frame (merge_of told.now.machine.now)) told.now.nodes.now (T.table told.now.table.now) }
    ensures { OnOk result (text.new ≡ text.old ++ count_text (merge_of told.now.machine.now) ((T.table told.now.table.now).at told.now.node) v element) }
{
    let count = count(told, v, element);
    push_name(text, told.machine, " ", v, element)?;
    push_number(alloc, text, "=", u64::from(count))
}

// Appends all elements of a viewpoint's lattice, each with its count.
#[tactic(auto, using(std::proofs::lemmas::Grind::common_steps, crate::proofs::Rows::line_pushed))]
fn push_counts<T: Rounds>(
    alloc: Global,
    text: &mut Bytes,
    told: &Told<T>,
    v: u8,
) -> Result<(), Memory>
    requires viewpoint { v < length (merge_of told.now.machine.now).viewpoints }
    requires node { told.now.node < length told.now.nodes.now }
    requires table { IsTableFor (merged_frame (merge_of told.now.machine.now)) told.now.nodes.now (T.table told.now.table.now) }
    ensures { OnOk result (text.new ≡ text.old ++ flat_map (count_text (merge_of told.now.machine.now) ((T.table told.now.table.now).at told.now.node) v) (range_with_len 0 (length (viewpoint_at (merge_of told.now.machine.now) v).lattice.names))) }
{
    for element in 0..told.machine.lattice(v).size() {
        push_count(alloc, text, told, v, element)?;
    }
    Ok(())
}

// Appends the share of a viewpoint: its name, and all elements of its lattice.
fn push_share<T: Rounds>(
    alloc: Global,
    text: &mut Bytes,
    marked: bool,
    told: &Told<T>,
    v: u8,
) -> Result<(), Memory>
    requires viewpoint { v < length (merge_of told.now.machine.now).viewpoints }
    requires node { told.now.node < length told.now.nodes.now }
    requires table { IsTableFor (merged_frame (merge_of told.now.machine.now)) told.now.nodes.now (T.table told.now.table.now) }
    ensures { OnOk result (text.new ≡ text.old ++ share_text marked (merge_of told.now.machine.now) ((T.table told.now.table.now).at told.now.node) v) }
{
    let viewpoint = told.machine.map().uses().get(usize::from(v));
    push_start(text, marked, "share ")?;
    text.extend(viewpoint.name.as_str().as_bytes())?;
    push_counts(alloc, text, told, v)?;
    text.extend(b"\n")
}

/// Appends the shares of all viewpoints.
#[tactic(auto, using(std::proofs::lemmas::Grind::common_steps, crate::proofs::Rows::line_pushed))]
pub(crate) fn push_shares<T: Rounds>(
    alloc: Global,
    text: &mut Bytes,
    marked: bool,
    told: &Told<T>,
) -> Result<(), Memory>
    requires node { told.now.node < length told.now.nodes.now }
    requires table { IsTableFor (merged_frame (merge_of told.now.machine.now)) told.now.nodes.now (T.table told.now.table.now) }
    ensures { OnOk result (text.new ≡ text.old ++ flat_map (share_text marked (merge_of told.now.machine.now) ((T.table told.now.table.now).at told.now.node)) (range_with_len 0 (length (merge_of told.now.machine.now).viewpoints))) }
{
    for v in 0..told.machine.viewpoints() {
        push_share(alloc, text, marked, told, v)?;
    }
    Ok(())
}
