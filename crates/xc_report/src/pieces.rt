//! The pieces that lines are made of.

ghost use Rattle.std.specs.Prelude.{◌≡◌, ◌<◌, ◌++◌, length, OnOk};
ghost use Rattle.std.specs.Fmt.{decimal};
ghost use Rattle.xc_base.specs.Names.{name_at};
ghost use Rattle.xc_merge.specs.Merges.{viewpoint_at};
ghost use Rattle.xc_machine.specs.Machines.{merge_of};
ghost use Rattle.xc_report.specs.Reports.{mark};

use std::alloc::Global;
use xc_base::{Bytes, Memory};
use xc_machine::Machine;

// What stands before each line of a report.
fn mark(marked: bool) -> &'static str
    ensures { result.now ≡ mark marked }
{
    if marked { "# " } else { "" }
}

/// Appends a label and a value.
pub(crate) fn push_both(text: &mut Bytes, label: &str, value: &str) -> Result<(), Memory>
    ensures { OnOk result (text.new ≡ text.old ++ label.now ++ value.now) }
{
    text.extend(label.as_bytes())?;
    text.extend(value.as_bytes())
}

/// Appends a label and a number.
pub(crate) fn push_number(
    alloc: Global,
    text: &mut Bytes,
    label: &str,
    number: u64,
) -> Result<(), Memory>
    ensures { OnOk result (text.new ≡ text.old ++ label.now ++ decimal number) }
{
    let digits = format!(in alloc; "{number}")?;
    push_both(text, label, digits.as_str())
}

/// Appends a label and the name of an element of a viewpoint's lattice.
pub(crate) fn push_name(
    text: &mut Bytes,
    machine: &Machine,
    label: &str,
    v: u8,
    element: u8,
) -> Result<(), Memory>
    requires viewpoint { v < length (merge_of machine.now).viewpoints }
    requires element { element < length (viewpoint_at (merge_of machine.now) v).lattice.names }
    ensures { OnOk result (text.new ≡ text.old ++ label.now ++ name_at (viewpoint_at (merge_of machine.now) v).lattice.names element) }
{
    let name = machine.lattice(v).names().get(usize::from(element));
    push_both(text, label, name.as_str())
}

/// Appends the beginning of a line, with its first words.
pub(crate) fn push_start(text: &mut Bytes, marked: bool, words: &str) -> Result<(), Memory>
    ensures { OnOk result (text.new ≡ text.old ++ mark marked ++ words.now) }
{
    push_both(text, mark(marked), words)
}
