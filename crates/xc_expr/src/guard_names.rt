//! Guards with places in place of names.

ghost use Rattle.std.specs.Prelude.{◌≡◌, true, IfOk, IfSome};
ghost use Rattle.std.specs.Option.{option_map};
ghost use Rattle.xc_forms.specs.Variables.{are_fit};
ghost use Rattle.xc_expr.specs.Tests.{test_of, is_in_range, Is, IsNot, Same, Differ, Not, And, Or};
ghost use Rattle.xc_expr.specs.Written.{written};
ghost use Rattle.xc_expr.specs.Resolving.{resolved, then_some, both, variable, operand};

use crate::guard::Guard;
use crate::operands::{peer, value, variable};
use crate::phrase::Phrase;
use std::alloc::Global;
use xc_base::Memory;
use xc_forms::Vars;

fn equal(vars: &Vars, name: &[u8], right: &[u8]) -> Option<Guard>
    requires { are_fit vars.now ≡ true }
    ensures { option_map test_of result
        ≡ then_some (variable vars.now name.now) (λ x. operand vars.now x right.now (Is x) (Same x)) }
{
    let var = variable(vars, name)?;
    match value(vars, var, right) {
        Some(value) => Some(Guard::Is { var, value }),
        None => Some(Guard::Same {
            left: var,
            right: peer(vars, var, right)?,
        }),
    }
}

fn unequal(vars: &Vars, name: &[u8], right: &[u8]) -> Option<Guard>
    requires { are_fit vars.now ≡ true }
    ensures { option_map test_of result
        ≡ then_some (variable vars.now name.now) (λ x. operand vars.now x right.now (IsNot x) (Differ x)) }
{
    let var = variable(vars, name)?;
    match value(vars, var, right) {
        Some(value) => Some(Guard::IsNot { var, value }),
        None => Some(Guard::Differ {
            left: var,
            right: peer(vars, var, right)?,
        }),
    }
}

fn not(alloc: Global, guard: Option<Guard>) -> Result<Option<Guard>, Memory>
    ensures { IfOk result (λ g. option_map test_of g ≡ option_map Not (option_map test_of guard)) }
{
    match guard {
        Some(guard) => Ok(Some(Guard::Not(Box::new(alloc, guard)?))),
        None => Ok(None),
    }
}

fn and(alloc: Global, left: Option<Guard>, right: Option<Guard>) -> Result<Option<Guard>, Memory>
    ensures { IfOk result
        (λ g. option_map test_of g ≡ both And (option_map test_of left) (option_map test_of right)) }
{
    match (left, right) {
        (Some(left), Some(right)) => Ok(Some(Guard::And(
            Box::new(alloc, left)?,
            Box::new(alloc, right)?,
        ))),
        _ => Ok(None),
    }
}

fn or(alloc: Global, left: Option<Guard>, right: Option<Guard>) -> Result<Option<Guard>, Memory>
    ensures { IfOk result
        (λ g. option_map test_of g ≡ both Or (option_map test_of left) (option_map test_of right)) }
{
    match (left, right) {
        (Some(left), Some(right)) => Ok(Some(Guard::Or(
            Box::new(alloc, left)?,
            Box::new(alloc, right)?,
        ))),
        _ => Ok(None),
    }
}

fn resolve(alloc: Global, phrase: &Phrase, vars: &Vars) -> Result<Option<Guard>, Memory>
    requires { are_fit vars.now ≡ true }
    ensures { IfOk result (λ guard. option_map test_of guard ≡ resolved vars.now (written phrase.now)) }
{
    match phrase {
        Phrase::True => Ok(Some(Guard::True)),
        Phrase::False => Ok(Some(Guard::False)),
        Phrase::Equal(name, operand) => Ok(equal(
            vars,
            name.as_str().as_bytes(),
            operand.as_str().as_bytes(),
        )),
        Phrase::Unequal(name, operand) => Ok(unequal(
            vars,
            name.as_str().as_bytes(),
            operand.as_str().as_bytes(),
        )),
        Phrase::Not(inner) => {
            let inner = resolve(alloc, inner, vars)?;
            not(alloc, inner)
        }
        Phrase::And(left, right) => {
            let left = resolve(alloc, left, vars)?;
            let right = resolve(alloc, right, vars)?;
            and(alloc, left, right)
        }
        Phrase::Or(left, right) => {
            let left = resolve(alloc, left, vars)?;
            let right = resolve(alloc, right, vars)?;
            or(alloc, left, right)
        }
    }
}

/// The guard with places in place of names, where the names are known: a name behind `=` or `!=` is a value of the
/// variable, or else a variable with the same values.
pub fn resolve_guard(alloc: Global, phrase: &Phrase, vars: &Vars) -> Result<Option<Guard>, Memory>
    requires { are_fit vars.now ≡ true }
    ensures known { IfOk result (λ guard. option_map test_of guard ≡ resolved vars.now (written phrase.now)) }
    ensures range { IfOk result (λ guard. IfSome guard (λ g. is_in_range vars.now (test_of g) ≡ true)) }
{
    resolve(alloc, phrase, vars)
}
