ghost use Rattle.std.specs.Prelude.{◌≡◌, ◌<◌, true, length};
ghost use Rattle.xc_theory.specs.Codes.{total, digits};
ghost use Rattle.xc_forms.specs.Variables.{are_fit, sizes_of};
ghost use Rattle.xc_expr.specs.Tests.{test_of, is_in_range, holds_at};

use crate::places::places_of;
use xc_expr::Guard;
use xc_forms::Vars;

/// Whether a guard holds where the variables have these places.
pub fn holds_in(guard: &Guard, vars: &Vars, places: &[u8]) -> bool
    requires guard { is_in_range vars.now (test_of guard.now) ≡ true }
    requires places { length places.now ≡ length vars.now }
    ensures { result ≡ holds_at (test_of guard.now) places.now }
{
    match guard {
        Guard::True => true,
        Guard::False => false,
        Guard::Is { var, value } => places[usize::from(*var)] == *value,
        Guard::IsNot { var, value } => places[usize::from(*var)] != *value,
        Guard::Same { left, right } => places[usize::from(*left)] == places[usize::from(*right)],
        Guard::Differ { left, right } => places[usize::from(*left)] != places[usize::from(*right)],
        Guard::Not(inner) => !holds_in(inner, vars, places),
        Guard::And(left, right) => holds_in(left, vars, places) && holds_in(right, vars, places),
        Guard::Or(left, right) => holds_in(left, vars, places) || holds_in(right, vars, places),
    }
}

/// Whether a guard holds at a state.
pub fn holds(guard: &Guard, vars: &Vars, state: u32) -> bool
    requires fit { are_fit vars.now ≡ true }
    requires guard { is_in_range vars.now (test_of guard.now) ≡ true }
    requires state { state < total (sizes_of vars.now) }
    ensures { result ≡ holds_at (test_of guard.now) (digits (sizes_of vars.now) state) }
{
    let row = places_of(vars, state);
    holds_in(guard, vars, &row[..vars.len()])
}
