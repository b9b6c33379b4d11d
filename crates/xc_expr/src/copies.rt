//! Equal guards and actions, with memory of their own.

ghost use Rattle.std.specs.Prelude.{◌≡◌, IfOk};
ghost use Rattle.xc_expr.specs.Tests.{test_of};

use crate::assign::Action;
use crate::guard::Guard;
use std::alloc::Global;
use xc_base::{List, Memory};

/// An equal guard.
pub fn copy_guard(alloc: Global, guard: &Guard) -> Result<Guard, Memory>
    ensures { IfOk result (λ copy. test_of copy ≡ test_of guard.now) }
{
    match guard {
        Guard::True => Ok(Guard::True),
        Guard::False => Ok(Guard::False),
        Guard::Is { var, value } => Ok(Guard::Is {
            var: *var,
            value: *value,
        }),
        Guard::IsNot { var, value } => Ok(Guard::IsNot {
            var: *var,
            value: *value,
        }),
        Guard::Same { left, right } => Ok(Guard::Same {
            left: *left,
            right: *right,
        }),
        Guard::Differ { left, right } => Ok(Guard::Differ {
            left: *left,
            right: *right,
        }),
        Guard::Not(inner) => {
            let inner = copy_guard(alloc, inner)?;
            Ok(Guard::Not(Box::new(alloc, inner)?))
        }
        Guard::And(left, right) => {
            let left = copy_guard(alloc, left)?;
            let right = copy_guard(alloc, right)?;
            Ok(Guard::And(Box::new(alloc, left)?, Box::new(alloc, right)?))
        }
        Guard::Or(left, right) => {
            let left = copy_guard(alloc, left)?;
            let right = copy_guard(alloc, right)?;
            Ok(Guard::Or(Box::new(alloc, left)?, Box::new(alloc, right)?))
        }
    }
}

/// An equal action.
pub fn copy_action(alloc: Global, action: &Action) -> Result<Action, Memory>
    ensures { IfOk result (λ copy. copy ≡ action.now) }
{
    List::of(alloc, action.as_slice())
}
