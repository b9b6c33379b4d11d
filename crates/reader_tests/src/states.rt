//! Guards and actions as they are read and printed, and the states that they tell, against values by hand.

ghost use Rattle.std.specs.Prelude.{◌≡◌, ◌<◌, true};
ghost use Rattle.xc_theory.specs.Codes.{total};
ghost use Rattle.xc_expr.specs.Actions.{is_action_in_range};
ghost use Rattle.xc_expr.specs.Tests.{test_of, is_in_range};
ghost use Rattle.xc_forms.specs.Variables.{are_fit, sizes_of};

use crate::views::view_of;
use std::alloc::{AllocError, Global};
use std::fmt::Write;
use std::test::Fail;
use xc_base::{Bytes, cut_lines};
use xc_expr::{Action, Guard, read_action, read_guard};
use xc_expr_text::{print_action, print_guard};
use xc_forms::{Vars, state_count};
use xc_moves::{holds, moves};
use xc_view::View;

// States are numbered by six for `a`, two for `b` and one for `q`.
const VIEW: &str = "view v\nlattice l\nvar a p q r\nvar b p q r\nvar q no yes\ninit true\n";

#[tactic(auto, using(crate::proofs::Sound::fit_of))]
fn vars_of(view: &View) -> &Vars
    ensures { are_fit result.now ≡ true }
{
    view.is_sound();
    view.vars()
}

/// What a guard or an action is printed as, and which states it tells.
#[derive(Drop)]
struct Seen {
    printed: Bytes,
    states: String,
}

// The states at which a guard holds.
#[tactic(auto, using(crate::proofs::Sound::domains_of, crate::proofs::Sound::few_of))]
fn states_told(alloc: Global, guard: &Guard, vars: &Vars) -> Result<String, AllocError>
    requires fit { are_fit vars.now ≡ true }
    requires guard { is_in_range vars.now (test_of guard.now) ≡ true }
{
    let mut text = String::new(alloc);
    for state in 0..state_count(vars) {
        if holds(guard, vars, state) {
            write!(text, " {state}")?;
        }
    }
    Ok(text)
}

fn seen_guard(alloc: Global, text: &str, vars: &Vars) -> Result<Option<Seen>, Fail>
    requires { are_fit vars.now ≡ true }
{
    let lines = cut_lines(alloc, text.as_bytes(), 4096)?;
    if lines.len() == 0 {
        return Ok(None);
    }
    let end = lines.lexemes(alloc, 0)?.len();
    let guard = read_guard(alloc, &lines, 0, 0, end, vars)?;
    let printed = print_guard(alloc, &guard, vars)?;
    let states = states_told(alloc, &guard, vars)?;
    Ok(Some(Seen { printed, states }))
}

// The states to which an action goes from one.
#[tactic(auto, using(crate::proofs::Sound::domains_of, crate::proofs::Sound::few_of))]
fn successors_told(
    alloc: Global,
    action: &Action,
    vars: &Vars,
    state: u32,
) -> Result<String, AllocError>
    requires fit { are_fit vars.now ≡ true }
    requires action { is_action_in_range vars.now action.now ≡ true }
    requires state { state < total (sizes_of vars.now) }
{
    let mut text = String::new(alloc);
    for next in 0..state_count(vars) {
        if moves(action, vars, state, next) {
            write!(text, " {next}")?;
        }
    }
    Ok(text)
}

fn seen_action(alloc: Global, text: &str, vars: &Vars, state: u32) -> Result<Option<Seen>, Fail>
    requires fit { are_fit vars.now ≡ true }
    requires state { state < total (sizes_of vars.now) }
{
    let lines = cut_lines(alloc, text.as_bytes(), 4096)?;
    if lines.len() == 0 {
        return Ok(None);
    }
    let end = lines.lexemes(alloc, 0)?.len();
    let action = read_action(alloc, &lines, 0, 0, end, vars)?;
    let printed = print_action(alloc, &action, vars)?;
    let states = successors_told(alloc, &action, vars, state)?;
    Ok(Some(Seen { printed, states }))
}

#[test]
fn guards_hold_at_states(rt: HostRuntime) -> Result<(), Fail> {
    let view = view_of(rt.alloc(), VIEW)?;
    let vars = vars_of(&view);
    for (text, printed, states) in [
        ("a=b & !(q=no)", "a=b&!q=no", " 1 9 17"),
        // a value of a variable goes before a variable of that name
        ("a=q & a!=b", "a=q&a!=b", " 6 7 10 11"),
        // `&` binds before `|`, and brackets before both
        (
            "a=p & b=q | b=r & q=yes",
            "a=p&b=q|b=r&q=yes",
            " 2 3 5 11 17",
        ),
        ("a=p & (b=q | b=r) & q=yes", "a=p&(b=q|b=r)&q=yes", " 3 5"),
        (
            "!a=p & q!=no & b!=p | false",
            "!a=p&q!=no&b!=p|false",
            " 9 11 15 17",
        ),
    ] {
        let Some(seen) = seen_guard(rt.alloc(), text, vars)? else {
            panic!(rt; "no guard in {text}");
        };
        assert_eq!(rt; seen.printed.as_slice(), printed.as_bytes(), "{text}");
        assert_eq!(rt; seen.states.as_str(), states, "{text}");
    }
    Ok(())
}

#[test]
#[tactic(auto, using(crate::proofs::Sound::domains_of, crate::proofs::Sound::few_of))]
fn actions_go_from_state_to_state(rt: HostRuntime) -> Result<(), Fail> {
    let view = view_of(rt.alloc(), VIEW)?;
    let vars = vars_of(&view);
    for (text, state, printed, states) in [
        ("skip", 5, "skip", " 5"),
        ("a:=next b; b:=a", 5, "a:=next b;b:=a", " 1"),
        ("b := prev b", 6, "b:=prev b", " 10"),
        ("a := next a", 17, "a:=next a", " 5"),
        ("a := r; b := a", 6, "a:=r;b:=a", " 14"),
        ("b := a; a := b", 5, "b:=a;a:=b", " 13"),
        ("a := any; q := any", 0, "a:=any;q:=any", " 0 1 6 7 12 13"),
        ("a := q", 5, "a:=q", " 11"),
        ("q := next q", 5, "q:=next q", " 4"),
    ] {
        assert!(rt; state < state_count(vars));
        let Some(seen) = seen_action(rt.alloc(), text, vars, state)? else {
            panic!(rt; "no action in {text}");
        };
        assert_eq!(rt; seen.printed.as_slice(), printed.as_bytes(), "{text}");
        assert_eq!(rt; seen.states.as_str(), states, "{text}");
    }
    Ok(())
}
