//! Guards and actions as text.

ghost use Rattle.std.specs.Prelude.{◌≡◌, ◌<◌, ◌++◌, ◌∷◌, [], true, List, length, IfOk, OnOk, OnErr};
ghost use Rattle.std.specs.List.{list_all};
ghost use Rattle.xc_base.specs.Canonical.{spaced};
ghost use Rattle.xc_base.specs.Lines.{texts};
ghost use Rattle.xc_forms.specs.Variables.{are_fit, values_at};
ghost use Rattle.xc_forms.specs.declared.domain.Domain.{Domain};
ghost use Rattle.xc_expr.specs.Tests.{test_of, is_in_range};
ghost use Rattle.xc_expr.specs.Actions.{is_assign_in_range, is_action_in_range};
ghost use Rattle.xc_expr.specs.Written.{assignment_tokens, action_tokens};
ghost use Rattle.xc_expr_text.specs.Printing.{variable_name, value_name, named_guard, named_assignment, named_action, is_or, is_joined, bracketed, guard_tokens, AreMarked};
ghost use Rattle.xc_expr_text.specs.PrintSteps.{only_if, tokens_behind};
ghost use Rattle.xc_expr_text.specs.PrintedTexts.{IsTextOfTest, IsTextOfAssigns};
ghost use Rattle.xc_expr_text.specs.Writable.{is_writable_guard, is_writable_action};

use std::alloc::Global;
use xc_base::{Bytes, Lexeme, List, Memory, is_word_text, spaced};
use xc_expr::{Action, Assign, Guard};
use xc_forms::Vars;

/// Appends a token.
#[tactic(auto, using(crate::proofs::Printing::push_steps))]
fn push<'v>(tokens: &mut List<Lexeme<'v>>, text: &'v [u8]) -> Result<(), Memory>
    ensures texts { OnOk result (texts tokens.new ≡ texts tokens.old ++ text.now ∷ []) }
    ensures words { OnOk result (AreMarked tokens.old → AreMarked tokens.new) }
{
    let word = is_word_text(text);
    tokens.push(Lexeme { text, word })
}

/// Appends a token, where it is wanted.
#[tactic(auto, using(crate::proofs::Printing::none_more))]
fn push_if<'v>(tokens: &mut List<Lexeme<'v>>, text: &'v [u8], wanted: bool) -> Result<(), Memory>
    ensures texts { OnOk result (texts tokens.new ≡ texts tokens.old ++ only_if wanted text.now) }
    ensures words { OnOk result (AreMarked tokens.old → AreMarked tokens.new) }
{
    if wanted { push(tokens, text) } else { Ok(()) }
}

/// Appends three tokens.
fn push_three<'v>(
    tokens: &mut List<Lexeme<'v>>,
    first: &'v [u8],
    second: &'v [u8],
    third: &'v [u8],
) -> Result<(), Memory>
    ensures texts { OnOk result (texts tokens.new ≡ texts tokens.old ++ first.now ∷ second.now ∷ third.now ∷ []) }
    ensures words { OnOk result (AreMarked tokens.old → AreMarked tokens.new) }
{
    push(tokens, first)?;
    push(tokens, second)?;
    push(tokens, third)
}

/// The name of a variable.
fn variable_name(vars: &Vars, var: u8) -> &[u8]
    requires { var < length vars.now }
    ensures { result.now ≡ variable_name vars.now var }
{
    vars.get(usize::from(var)).name.as_str().as_bytes()
}

/// The name of a value that a variable has.
fn value_name(vars: &Vars, var: u8, value: u8) -> &[u8]
    requires var { var < length vars.now }
    requires value { value < length (values_at vars.now var) }
    ensures { result.now ≡ value_name vars.now var value }
{
    let values = &vars.get(usize::from(var)).values;
    values.get(usize::from(value)).as_str().as_bytes()
}

fn is_or(guard: &Guard) -> bool
    ensures { (vars : List Domain) → result ≡ is_or (named_guard vars (test_of guard.now)) }
{
    matches!(guard, Guard::Or(..))
}

fn is_joined(guard: &Guard) -> bool
    ensures { (vars : List Domain) → result ≡ is_joined (named_guard vars (test_of guard.now)) }
{
    matches!(guard, Guard::And(..) | Guard::Or(..))
}

/// Writes the tokens of a guard behind others, in brackets where they are wanted.
#[tactic(auto, using(crate::proofs::Printing::guard_steps))]
#[cycle(printer)]
fn write_operand<'v>(
    tokens: &mut List<Lexeme<'v>>,
    guard: &Guard,
    vars: &'v Vars,
    brackets: bool,
) -> Result<(), Memory>
    requires { is_in_range vars.now (test_of guard.now) ≡ true }
    ensures texts { OnOk result (texts tokens.new
        ≡ texts tokens.old ++ bracketed brackets (guard_tokens (named_guard vars.now (test_of guard.now)))) }
    ensures words { OnOk result (AreMarked tokens.old → AreMarked tokens.new) }
{
    push_if(tokens, b"(", brackets)?;
    write_guard(tokens, guard, vars)?;
    push_if(tokens, b")", brackets)
}

/// Writes the tokens of a guard behind others.
#[tactic(auto, using(crate::proofs::Printing::guard_steps))]
#[cycle(printer)]
fn write_guard<'v>(
    tokens: &mut List<Lexeme<'v>>,
    guard: &Guard,
    vars: &'v Vars,
) -> Result<(), Memory>
    requires { is_in_range vars.now (test_of guard.now) ≡ true }
    ensures texts { OnOk result (texts tokens.new ≡ texts tokens.old ++ guard_tokens (named_guard vars.now (test_of guard.now))) }
    ensures words { OnOk result (AreMarked tokens.old → AreMarked tokens.new) }
{
    match guard {
        Guard::True => push(tokens, b"true"),
        Guard::False => push(tokens, b"false"),
        Guard::Is { var, value } => {
            let right = value_name(vars, *var, *value);
            push_three(tokens, variable_name(vars, *var), b"=", right)
        }
        Guard::IsNot { var, value } => {
            let right = value_name(vars, *var, *value);
            push_three(tokens, variable_name(vars, *var), b"!=", right)
        }
        Guard::Same { left, right } => {
            let right = variable_name(vars, *right);
            push_three(tokens, variable_name(vars, *left), b"=", right)
        }
        Guard::Differ { left, right } => {
            let right = variable_name(vars, *right);
            push_three(tokens, variable_name(vars, *left), b"!=", right)
        }
        Guard::Not(inner) => {
            push(tokens, b"!")?;
            write_operand(tokens, inner, vars, is_joined(inner))
        }
        Guard::And(left, right) => {
            write_operand(tokens, left, vars, is_or(left))?;
            push(tokens, b"&")?;
            write_operand(tokens, right, vars, is_joined(right))
        }
        Guard::Or(left, right) => {
            write_guard(tokens, left, vars)?;
            push(tokens, b"|")?;
            write_operand(tokens, right, vars, is_or(right))
        }
    }
}

#[tactic(auto, using(crate::proofs::Printing::marked_none))]
fn lexemes_of_guard<'v>(
    alloc: Global,
    guard: &Guard,
    vars: &'v Vars,
) -> Result<List<Lexeme<'v>>, Memory>
    requires { is_in_range vars.now (test_of guard.now) ≡ true }
    ensures texts { IfOk result (λ xs. texts xs ≡ guard_tokens (named_guard vars.now (test_of guard.now))) }
    ensures words { IfOk result AreMarked }
{
    let mut tokens = List::new(alloc);
    write_guard(&mut tokens, guard, vars)?;
    Ok(tokens)
}

/// Appends the tokens of a guard. A list for which there is no memory stays as it was.
#[tactic(auto, using(crate::proofs::Printing::extend_steps))]
pub fn push_guard<'v>(
    alloc: Global,
    tokens: &mut List<Lexeme<'v>>,
    guard: &Guard,
    vars: &'v Vars,
) -> Result<(), Memory>
    requires { is_in_range vars.now (test_of guard.now) ≡ true }
    ensures texts { OnOk result (texts tokens.new ≡ texts tokens.old ++ guard_tokens (named_guard vars.now (test_of guard.now))) }
    ensures words { OnOk result (AreMarked tokens.old → AreMarked tokens.new) }
    ensures err { OnErr result (tokens.new ≡ tokens.old) }
{
    let more = lexemes_of_guard(alloc, guard, vars)?;
    tokens.extend(more.as_slice())
}

/// The canonical text of a guard, with no line end. It is read again as the guard, where that can be written.
#[tactic(auto, using(std::proofs::lemmas::Grind::common_steps, crate::proofs::PrintedTexts::guard_text))]
pub fn print_guard(alloc: Global, guard: &Guard, vars: &Vars) -> Result<Bytes, Memory>
    requires fit { are_fit vars.now ≡ true }
    requires range { is_in_range vars.now (test_of guard.now) ≡ true }
    ensures text { IfOk result (λ text. text ≡ spaced (guard_tokens (named_guard vars.now (test_of guard.now)))) }
    ensures again { is_writable_guard vars.now (test_of guard.now) ≡ true → IfOk result (IsTextOfTest vars.now (test_of guard.now)) }
{
    let tokens = lexemes_of_guard(alloc, guard, vars)?;
    spaced(alloc, tokens.as_slice())
}

/// Writes the tokens of an assignment behind others.
#[tactic(auto, using(crate::proofs::Printing::guard_steps))]
fn write_assignment<'v>(
    tokens: &mut List<Lexeme<'v>>,
    assign: &Assign,
    vars: &'v Vars,
) -> Result<(), Memory>
    requires { is_assign_in_range vars.now assign.now ≡ true }
    ensures texts { OnOk result (texts tokens.new ≡ texts tokens.old ++ assignment_tokens (named_assignment vars.now assign.now)) }
    ensures words { OnOk result (AreMarked tokens.old → AreMarked tokens.new) }
{
    match *assign {
        Assign::Value { var, value } => {
            let right = value_name(vars, var, value);
            push_three(tokens, variable_name(vars, var), b":=", right)
        }
        Assign::Copy { var, from } => {
            let right = variable_name(vars, from);
            push_three(tokens, variable_name(vars, var), b":=", right)
        }
        Assign::Next { var, from } => {
            push_three(tokens, variable_name(vars, var), b":=", b"next")?;
            push(tokens, variable_name(vars, from))
        }
        Assign::Prev { var, from } => {
            push_three(tokens, variable_name(vars, var), b":=", b"prev")?;
            push(tokens, variable_name(vars, from))
        }
        Assign::Any { var } => push_three(tokens, variable_name(vars, var), b":=", b"any"),
    }
}

/// Writes the tokens of assignments behind others, each with `;` before it.
#[tactic(auto, using(std::proofs::lemmas::Grind::common_steps, crate::proofs::Printing::action_steps))]
fn write_others<'v>(
    tokens: &mut List<Lexeme<'v>>,
    others: &[Assign],
    vars: &'v Vars,
) -> Result<(), Memory>
    requires { list_all (is_assign_in_range vars.now) others.now ≡ true }
    ensures texts { OnOk result (texts tokens.new ≡ texts tokens.old ++ tokens_behind (named_action vars.now others.now)) }
    ensures words { OnOk result (AreMarked tokens.old → AreMarked tokens.new) }
{
    for assign in others {
        push(tokens, b";")?;
        write_assignment(tokens, assign, vars)?;
    }
    Ok(())
}

/// Writes the tokens of an action behind others.
#[tactic(auto, using(std::proofs::lemmas::Grind::common_steps, crate::proofs::Printing::whole_steps))]
fn write_action<'v>(
    tokens: &mut List<Lexeme<'v>>,
    action: &Action,
    vars: &'v Vars,
) -> Result<(), Memory>
    requires { is_action_in_range vars.now action.now ≡ true }
    ensures texts { OnOk result (texts tokens.new ≡ texts tokens.old ++ action_tokens (named_action vars.now action.now)) }
    ensures words { OnOk result (AreMarked tokens.old → AreMarked tokens.new) }
{
    let [first, others @ ..] = action.as_slice() else {
        return push(tokens, b"skip");
    };
    write_assignment(tokens, first, vars)?;
    write_others(tokens, others, vars)
}

#[tactic(auto, using(crate::proofs::Printing::marked_none))]
fn lexemes_of_action<'v>(
    alloc: Global,
    action: &Action,
    vars: &'v Vars,
) -> Result<List<Lexeme<'v>>, Memory>
    requires { is_action_in_range vars.now action.now ≡ true }
    ensures texts { IfOk result (λ xs. texts xs ≡ action_tokens (named_action vars.now action.now)) }
    ensures words { IfOk result AreMarked }
{
    let mut tokens = List::new(alloc);
    write_action(&mut tokens, action, vars)?;
    Ok(tokens)
}

/// Appends the tokens of an action. A list for which there is no memory stays as it was.
#[tactic(auto, using(crate::proofs::Printing::extend_steps))]
pub fn push_action<'v>(
    alloc: Global,
    tokens: &mut List<Lexeme<'v>>,
    action: &Action,
    vars: &'v Vars,
) -> Result<(), Memory>
    requires { is_action_in_range vars.now action.now ≡ true }
    ensures texts { OnOk result (texts tokens.new ≡ texts tokens.old ++ action_tokens (named_action vars.now action.now)) }
    ensures words { OnOk result (AreMarked tokens.old → AreMarked tokens.new) }
    ensures err { OnErr result (tokens.new ≡ tokens.old) }
{
    let more = lexemes_of_action(alloc, action, vars)?;
    tokens.extend(more.as_slice())
}

/// The canonical text of an action, with no line end: `skip` where there are no assignments. It is read again as the action,
/// where that can be written.
#[tactic(auto, using(std::proofs::lemmas::Grind::common_steps, crate::proofs::PrintedTexts::action_text))]
pub fn print_action(alloc: Global, action: &Action, vars: &Vars) -> Result<Bytes, Memory>
    requires fit { are_fit vars.now ≡ true }
    requires range { is_action_in_range vars.now action.now ≡ true }
    ensures text { IfOk result (λ text. text ≡ spaced (action_tokens (named_action vars.now action.now))) }
    ensures again { is_writable_action vars.now action.now ≡ true → IfOk result (IsTextOfAssigns vars.now action.now) }
{
    let tokens = lexemes_of_action(alloc, action, vars)?;
    spaced(alloc, tokens.as_slice())
}
