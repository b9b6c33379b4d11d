//! Equal views, with memory of their own.

ghost use Rattle.std.specs.Prelude.{◌≡◌, map, IfOk};
ghost use Rattle.xc_view.specs.Parts.{prop_value, command_value};

use crate::lines::{Command, PropLine};
use crate::view::View;
use std::alloc::Global;
use xc_base::{List, Memory};
use xc_expr::{copy_action, copy_guard};
use xc_forms::copy_vars;

fn copy_prop(alloc: Global, line: &PropLine) -> Result<PropLine, Memory>
    ensures { IfOk result (λ copy. prop_value copy ≡ prop_value line.now) }
{
    let name = line.name.copy(alloc)?;
    let value = line.value.copy(alloc)?;
    let guard = copy_guard(alloc, &line.guard)?;
    Ok(PropLine { name, value, guard })
}

fn copy_props(alloc: Global, lines: &[PropLine]) -> Result<List<PropLine>, Memory>
    ensures { IfOk result (λ copies. map prop_value copies ≡ map prop_value lines.now) }
{
    let mut copies = List::new(alloc);
    for line in lines {
        copies.push(copy_prop(alloc, line)?)?;
    }
    Ok(copies)
}

fn copy_command(alloc: Global, command: &Command) -> Result<Command, Memory>
    ensures { IfOk result (λ copy. command_value copy ≡ command_value command.now) }
{
    let name = command.name.copy(alloc)?;
    let value = command.value.copy(alloc)?;
    let guard = copy_guard(alloc, &command.guard)?;
    let action = copy_action(alloc, &command.action)?;
    Ok(Command {
        name,
        value,
        guard,
        action,
    })
}

fn copy_commands(alloc: Global, commands: &[Command]) -> Result<List<Command>, Memory>
    ensures { IfOk result (λ copies. map command_value copies ≡ map command_value commands.now) }
{
    let mut copies = List::new(alloc);
    for command in commands {
        copies.push(copy_command(alloc, command)?)?;
    }
    Ok(copies)
}

impl View {
    ghost use Rattle.xc_view.specs.Views.{value_of};

    /// An equal view, with memory of its own.
    pub fn copy(&self, alloc: Global) -> Result<View, Memory>
        ensures { IfOk result (λ v. value_of v ≡ value_of self.now) }
    {
        let name = self.name().copy(alloc)?;
        let lattice = self.lattice().copy(alloc)?;
        let vars = copy_vars(alloc, self.vars())?;
        let init = copy_guard(alloc, self.init())?;
        let props = copy_props(alloc, self.props().as_slice())?;
        let commands = copy_commands(alloc, self.commands().as_slice())?;
        Ok(View::of(name, lattice, vars, init, props, commands))
    }
}
