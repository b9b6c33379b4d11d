ghost use Rattle.std.specs.Prelude.{◌≡◌, ◌<◌, true, length, find};
ghost use Rattle.xc_theory.specs.Codes.{total, digits, AreDigits};
ghost use Rattle.xc_forms.specs.Variables.{are_fit, sizes_of};
ghost use Rattle.xc_expr.specs.Actions.{assigned, assigns, gives, allows, is_assign_in_range, is_action_in_range};
ghost use Rattle.xc_moves.specs.Moving.{goes_at, goes_from};

use crate::places::{places_of, size_of};
use xc_expr::{Action, Assign};
use xc_forms::Vars;

/// The variable that is assigned.
fn assigned(assign: &Assign) -> usize
    ensures { result ≡ assigned assign.now }
{
    let (Assign::Value { var, .. }
    | Assign::Copy { var, .. }
    | Assign::Next { var, .. }
    | Assign::Prev { var, .. }
    | Assign::Any { var }) = assign;
    usize::from(*var)
}

/// The assignment of a variable, where it has one.
fn assignment_of(action: &Action, var: usize) -> Option<Assign>
    ensures { result ≡ find (assigns var) action.now }
{
    action
        .as_slice()
        .iter()
        .copied()
        .find(|assign| assigned(assign) == var)
}

/// Whether an assignment gives its variable that place.
fn gives(assign: &Assign, vars: &Vars, row: &[u8], place: u8) -> bool
    requires fit { are_fit vars.now ≡ true }
    requires range { is_assign_in_range vars.now assign.now ≡ true }
    requires row { length row.now ≡ length vars.now }
    ensures { result ≡ gives (sizes_of vars.now) row.now assign.now place }
{
    match *assign {
        Assign::Value { value, .. } => place == value,
        Assign::Copy { from, .. } => place == row[usize::from(from)],
        Assign::Next { from, .. } => {
            u32::from(place)
                == (u32::from(row[usize::from(from)]) + 1) % size_of(vars, usize::from(from))
        }
        Assign::Prev { from, .. } => {
            (u32::from(place) + 1) % size_of(vars, usize::from(from))
                == u32::from(row[usize::from(from)])
        }
        Assign::Any { .. } => true,
    }
}

/// Whether a variable goes from its place to the other.
#[tactic(auto, unfolding(crate::specs::Moving::goes_at))]
fn goes_at(action: &Action, vars: &Vars, from: &[u8], to: &[u8], var: usize) -> bool
    requires fit { are_fit vars.now ≡ true }
    requires action { is_action_in_range vars.now action.now ≡ true }
    requires from { length from.now ≡ length vars.now }
    requires to { length to.now ≡ length vars.now }
    requires range { var < length vars.now }
    ensures { result ≡ goes_at (sizes_of vars.now) action.now from.now to.now var }
{
    match assignment_of(action, var) {
        Some(assign) => gives(&assign, vars, from, to[var]),
        None => to[var] == from[var],
    }
}

/// Whether each variable goes from its place to the other.
#[tactic(auto, using(std::proofs::lemmas::Grind::common_steps, crate::proofs::Moving::sizes_length, crate::proofs::Moving::goes_more, crate::proofs::Moving::goes_none))]
fn goes(action: &Action, vars: &Vars, from: &[u8], to: &[u8]) -> bool
    requires fit { are_fit vars.now ≡ true }
    requires action { is_action_in_range vars.now action.now ≡ true }
    requires from { length from.now ≡ length vars.now }
    requires to { length to.now ≡ length vars.now }
    ensures { result ≡ goes_from (sizes_of vars.now) action.now from.now to.now 0 }
{
    for var in 0..vars.len() {
        if !goes_at(action, vars, from, to, var) {
            return false;
        }
    }
    true
}

/// Whether an action goes from these places to those.
#[tactic(auto, using(std::proofs::lemmas::Grind::common_steps, crate::proofs::Moving::sizes_length, crate::proofs::Moving::goes_all, crate::proofs::Moving::digits_length))]
pub fn moves_in(action: &Action, vars: &Vars, from: &[u8], to: &[u8]) -> bool
    requires fit { are_fit vars.now ≡ true }
    requires action { is_action_in_range vars.now action.now ≡ true }
    requires from { AreDigits (sizes_of vars.now) from.now }
    requires to { AreDigits (sizes_of vars.now) to.now }
    ensures { result ≡ allows (sizes_of vars.now) action.now from.now to.now }
{
    goes(action, vars, from, to)
}

/// Whether an action goes from a state to another.
pub fn moves(action: &Action, vars: &Vars, s: u32, t: u32) -> bool
    requires fit { are_fit vars.now ≡ true }
    requires action { is_action_in_range vars.now action.now ≡ true }
    requires from { s < total (sizes_of vars.now) }
    requires to { t < total (sizes_of vars.now) }
    ensures { result ≡ allows (sizes_of vars.now) action.now (digits (sizes_of vars.now) s) (digits (sizes_of vars.now) t) }
{
    let from = places_of(vars, s);
    let to = places_of(vars, t);
    moves_in(action, vars, &from[..vars.len()], &to[..vars.len()])
}
