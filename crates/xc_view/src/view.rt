ghost use Rattle.std.specs.Prelude.{◌≡◌, true, map};
ghost use Rattle.xc_expr.specs.Tests.{test_of};
ghost use Rattle.xc_view.specs.Parts.{prop_value, command_value, is_sound};
ghost use Rattle.xc_view.specs.Writable.{is_writable};

use crate::lines::{Command, PropLine};
use xc_base::{List, Word};
use xc_expr::Guard;
use xc_forms::Vars;

/// What a stakeholder says of a system: its variables, where it begins, its propositions and its steps.
///
/// Values stay words, to be looked up in the lattice that the view names. What is named by number is there, nothing is longer or
/// more than it may be, and guards and actions can be written by names that say what they are.
#[derive(Debug, Drop)]
pub struct View {
    name: Word,
    lattice: Word,
    vars: Vars,
    init: Guard,
    props: List<PropLine>,
    commands: List<Command>,
    ghost sound: { is_sound (record { name = name; lattice = lattice; vars = vars; init = test_of init; props = map prop_value props; commands = map command_value commands }) ≡ true },
    ghost writable: { is_writable (record { name = name; lattice = lattice; vars = vars; init = test_of init; props = map prop_value props; commands = map command_value commands }) ≡ true },
}

impl View {
    ghost use Rattle.xc_view.specs.Views.{value_of};

    /// The view of these parts.
    pub(crate) fn of(
        name: Word,
        lattice: Word,
        vars: Vars,
        init: Guard,
        props: List<PropLine>,
        commands: List<Command>,
    ) -> View
        requires sound { is_sound (record { name = name; lattice = lattice; vars = vars; init = test_of init; props = map prop_value props; commands = map command_value commands }) ≡ true }
        requires writable { is_writable (record { name = name; lattice = lattice; vars = vars; init = test_of init; props = map prop_value props; commands = map command_value commands }) ≡ true }
        ensures { value_of result
            ≡ record { name = name; lattice = lattice; vars = vars; init = test_of init; props = map prop_value props; commands = map command_value commands } }
    {
        View {
            name,
            lattice,
            vars,
            init,
            props,
            commands,
        }
    }

    /// The view's name.
    pub fn name(&self) -> &Word
        ensures { result.now ≡ (value_of self.now).name }
    {
        &self.name
    }

    /// The name of the file of its lattice.
    pub fn lattice(&self) -> &Word
        ensures { result.now ≡ (value_of self.now).lattice }
    {
        &self.lattice
    }

    /// Its variables.
    pub fn vars(&self) -> &Vars
        ensures { result.now ≡ (value_of self.now).vars }
    {
        &self.vars
    }

    /// What holds exactly at the initial states.
    pub fn init(&self) -> &Guard
        ensures { test_of result.now ≡ (value_of self.now).init }
    {
        &self.init
    }

    /// The lines of its propositions, in order.
    pub fn props(&self) -> &List<PropLine>
        ensures { map prop_value result.now ≡ (value_of self.now).props }
    {
        &self.props
    }

    /// Its commands, in order.
    pub fn commands(&self) -> &List<Command>
        ensures { map command_value result.now ≡ (value_of self.now).commands }
    {
        &self.commands
    }

    /// In a view what is named by number is there, and nothing is longer or more than it may be.
    pub fn is_sound(&self)
        ensures { is_sound (value_of self.now) ≡ true }
    {}
}
