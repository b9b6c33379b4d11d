//! Words that are looked for among names.

ghost use Rattle.xc_merge.specs.Finding.{Finds, value_fault, name_fault, prop_values, command_values, pair_names};

use crate::fault::MergeFault;
use std::alloc::Global;
use xc_base::{List, Word, is_among};
use xc_sigmap_lines::Carry;
use xc_view::{Command, PropLine};

/// Looks for a value among the names of elements.
pub(crate) fn look_for_value(
    alloc: Global,
    viewpoint: &Word,
    names: &List<Word>,
    word: &Word,
) -> Result<(), MergeFault>
    ensures { Finds (value_fault viewpoint.now names.now word.now) result }
{
    if is_among(names.as_slice(), word.as_str().as_bytes()) {
        return Ok(());
    }
    let viewpoint = viewpoint.copy(alloc)?;
    let value = word.copy(alloc)?;
    Err(MergeFault::UnknownValue { viewpoint, value })
}

/// Looks for a name among others.
pub(crate) fn look_for_name(
    alloc: Global,
    viewpoint: &Word,
    names: &List<Word>,
    word: &Word,
) -> Result<(), MergeFault>
    ensures { Finds (name_fault viewpoint.now names.now word.now) result }
{
    if is_among(names.as_slice(), word.as_str().as_bytes()) {
        return Ok(());
    }
    let viewpoint = viewpoint.copy(alloc)?;
    let name = word.copy(alloc)?;
    Err(MergeFault::UnknownName { viewpoint, name })
}

/// Looks for the values of lines of propositions.
#[tactic(auto, using(std::proofs::lemmas::Grind::common_steps, crate::proofs::Steps::prop_values_steps))]
pub(crate) fn look_for_props(
    alloc: Global,
    viewpoint: &Word,
    names: &List<Word>,
    lines: &[PropLine],
) -> Result<(), MergeFault>
    ensures { Finds (prop_values viewpoint.now names.now lines.now) result }
{
    for line in lines {
        look_for_value(alloc, viewpoint, names, &line.value)?;
    }
    Ok(())
}

/// Looks for the values of commands.
#[tactic(auto, using(std::proofs::lemmas::Grind::common_steps, crate::proofs::Steps::command_values_steps))]
pub(crate) fn look_for_commands(
    alloc: Global,
    viewpoint: &Word,
    names: &List<Word>,
    commands: &[Command],
) -> Result<(), MergeFault>
    ensures { Finds (command_values viewpoint.now names.now commands.now) result }
{
    for command in commands {
        look_for_value(alloc, viewpoint, names, &command.value)?;
    }
    Ok(())
}

/// Looks for the words of pairs among the values of a variable.
#[tactic(auto, using(std::proofs::lemmas::Grind::common_steps, crate::proofs::Steps::pair_names_steps))]
pub(crate) fn look_for_pairs(
    alloc: Global,
    viewpoint: &Word,
    values: &List<Word>,
    pairs: &[Carry],
) -> Result<(), MergeFault>
    ensures { Finds (pair_names viewpoint.now values.now pairs.now) result }
{
    for pair in pairs {
        look_for_name(alloc, viewpoint, values, &pair.word)?;
    }
    Ok(())
}
