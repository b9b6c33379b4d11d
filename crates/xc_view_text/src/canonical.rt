//! Canonical texts of views.

ghost use Rattle.std.specs.Prelude.{◌≡◌, ◌++◌, ◌∷◌, [], true, map, OnOk, IfOk};
ghost use Rattle.std.specs.List.{list_all};
ghost use Rattle.xc_base.specs.Lines.{texts};
ghost use Rattle.xc_expr.specs.Tests.{test_of, is_in_range};
ghost use Rattle.xc_expr.specs.Actions.{is_action_in_range};
ghost use Rattle.xc_expr_text.specs.Printing.{named_guard};
ghost use Rattle.xc_view_lines.specs.ViewLines.{View as ViewLine, Lattice as LatticeLine, Var as VarLine, Init as InitLine};
ghost use Rattle.xc_view.specs.Parts.{prop_value, command_value};
ghost use Rattle.xc_view.specs.Printing.{spelling, prop_statement, command_statement};
ghost use Rattle.xc_view_text.specs.Spelled.{written, is_prop_printed, is_command_printed};
ghost use Rattle.std.specs.Prelude.{ℕ, None, ◌≤◌, length};
ghost use Rattle.xc_base.specs.Canonical.{canonical, is_short};
ghost use Rattle.xc_base.specs.Formats.{IsAccepted};
ghost use Rattle.xc_base.specs.Lines.{text_rows};
ghost use Rattle.xc_base.specs.Text.{text_fault};
ghost use Rattle.xc_view.specs.ViewFiles.{view_format};
ghost use Rattle.xc_view.specs.Views.{value_of};
ghost use Rattle.xc_view.specs.Printing.{view_lines};

use std::alloc::Global;
use xc_base::{Bytes, Lexeme, List, Memory, Word, push_line};
use xc_expr::Guard;
use xc_expr_text::{push_action, push_guard};
use xc_forms::{Vars, lexeme, push_vars, word};
use xc_view::{Command, PropLine, View};

#[tactic(auto, unfolding(xc_forms::specs::PrintedLines::written))]
fn push_name(text: &mut Bytes, name: &Word) -> Result<(), Memory>
    ensures { OnOk result (text.new ≡ text.old ++ written ViewLine (name.now ∷ [])) }
{
    push_line(text, &[word(b"view"), lexeme(name)])
}

#[tactic(auto, unfolding(xc_forms::specs::PrintedLines::written))]
fn push_lattice(text: &mut Bytes, file: &Word) -> Result<(), Memory>
    ensures { OnOk result (text.new ≡ text.old ++ written LatticeLine (file.now ∷ [])) }
{
    push_line(text, &[word(b"lattice"), lexeme(file)])
}

#[tactic(auto, using(crate::proofs::Printing::vars_lines))]
fn push_var_lines(alloc: Global, text: &mut Bytes, vars: &Vars) -> Result<(), Memory>
    ensures { OnOk result (text.new ≡ text.old ++ written VarLine vars.now) }
{
    push_vars(alloc, text, vars.as_slice())
}

#[tactic(auto, unfolding(xc_forms::specs::PrintedLines::written))]
fn push_init(alloc: Global, text: &mut Bytes, vars: &Vars, init: &Guard) -> Result<(), Memory>
    requires { is_in_range vars.now (test_of init.now) ≡ true }
    ensures { OnOk result (text.new ≡ text.old ++ written InitLine (named_guard vars.now (test_of init.now) ∷ [])) }
{
    let mut tokens = List::of(alloc, &[word(b"init")])?;
    push_guard(alloc, &mut tokens, init, vars)?;
    push_line(text, tokens.as_slice())
}

#[tactic(auto, unfolding(xc_forms::specs::PrintedLines::written))]
fn push_prop(alloc: Global, text: &mut Bytes, vars: &Vars, line: &PropLine) -> Result<(), Memory>
    requires { is_prop_printed vars.now line.now ≡ true }
    ensures { OnOk result (text.new ≡ text.old ++ written (prop_statement vars.now) (prop_value line.now ∷ [])) }
{
    let (name, value) = (lexeme(&line.name), lexeme(&line.value));
    let mut tokens = List::of(alloc, &[word(b"prop"), name, value, word(b"when")])?;
    push_guard(alloc, &mut tokens, &line.guard, vars)?;
    push_line(text, tokens.as_slice())
}

#[tactic(auto, using(std::proofs::lemmas::Grind::common_steps, crate::proofs::Printing::props_from, crate::proofs::Printing::props_end, crate::proofs::Printing::prop_at))]
fn push_props(
    alloc: Global,
    text: &mut Bytes,
    vars: &Vars,
    lines: &[PropLine],
) -> Result<(), Memory>
    requires { list_all (is_prop_printed vars.now) lines.now ≡ true }
    ensures { OnOk result (text.new ≡ text.old ++ written (prop_statement vars.now) (map prop_value lines.now)) }
{
    for line in lines {
        push_prop(alloc, text, vars, line)?;
    }
    Ok(())
}

fn command_tokens<'a>(
    alloc: Global,
    vars: &'a Vars,
    command: &'a Command,
) -> Result<List<Lexeme<'a>>, Memory>
    requires { is_command_printed vars.now command.now ≡ true }
    ensures { IfOk result (λ tokens. texts tokens ≡ spelling (command_statement vars.now (command_value command.now))) }
{
    let (name, value) = (lexeme(&command.name), lexeme(&command.value));
    let front = [word(b"command"), name, word(b"with"), value, word(b"when")];
    let mut tokens = List::of(alloc, &front)?;
    push_guard(alloc, &mut tokens, &command.guard, vars)?;
    tokens.push(word(b"do"))?;
    push_action(alloc, &mut tokens, &command.action, vars)?;
    Ok(tokens)
}

#[tactic(auto, unfolding(xc_forms::specs::PrintedLines::written))]
fn push_command(
    alloc: Global,
    text: &mut Bytes,
    vars: &Vars,
    command: &Command,
) -> Result<(), Memory>
    requires { is_command_printed vars.now command.now ≡ true }
    ensures { OnOk result (text.new ≡ text.old ++ written (command_statement vars.now) (command_value command.now ∷ [])) }
{
    let tokens = command_tokens(alloc, vars, command)?;
    push_line(text, tokens.as_slice())
}

#[tactic(auto, using(std::proofs::lemmas::Grind::common_steps, crate::proofs::Printing::commands_from, crate::proofs::Printing::commands_end, crate::proofs::Printing::command_at))]
fn push_commands(
    alloc: Global,
    text: &mut Bytes,
    vars: &Vars,
    commands: &[Command],
) -> Result<(), Memory>
    requires { list_all (is_command_printed vars.now) commands.now ≡ true }
    ensures { OnOk result (text.new ≡ text.old ++ written (command_statement vars.now) (map command_value commands.now)) }
{
    for command in commands {
        push_command(alloc, text, vars, command)?;
    }
    Ok(())
}

/// The canonical text of a view. It is read again as the same view, where no line is too long.
pub fn print(alloc: Global, view: &View) -> Result<Bytes, Memory>
    ensures text { IfOk result (λ text. text ≡ canonical (view_lines (value_of view.now))) }
    ensures again { IfOk result (λ text. IsAccepted view_format (text_rows text) (value_of view.now)) }
    ensures sound { list_all is_short (view_lines (value_of view.now)) ≡ true
        → IfOk result (λ text. (limit : ℕ) → length text ≤ limit → text_fault limit text ≡ None) }
{
    let vars = view.vars();
    let mut text = List::new(alloc);
    push_name(&mut text, view.name())?;
    push_lattice(&mut text, view.lattice())?;
    push_var_lines(alloc, &mut text, vars)?;
    push_init(alloc, &mut text, vars, view.init())?;
    push_props(alloc, &mut text, vars, view.props().as_slice())?;
    push_commands(alloc, &mut text, vars, view.commands().as_slice())?;
    Ok(text)
}
