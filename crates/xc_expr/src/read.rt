ghost use Rattle.std.specs.Prelude.{◌≡◌, ◌<◌, ◌≤◌, true, length, IfOk, IfErr};
ghost use Rattle.xc_base.specs.Lines.{rows_in, row_at};
ghost use Rattle.xc_forms.specs.Variables.{are_fit};
ghost use Rattle.xc_expr.specs.Tests.{test_of, is_in_range};
ghost use Rattle.xc_expr.specs.Actions.{is_action_in_range};
ghost use Rattle.xc_expr.specs.Outcomes.{tokens_at, IsTest, IsGuardFault, AreAssigns, IsActionFault};

use crate::action_reader::action_of;
use crate::assign::Action;
use crate::fault::ExprFault;
use crate::guard::Guard;
use crate::guard_reader::guard_of;
use std::alloc::Global;
use xc_base::Lines;
use xc_forms::Vars;

/// The guard that the tokens of a row from one place up to another are.
///
/// It fails where they are no guard, where they name what there is not, and where there is no memory.
#[tactic(auto, using(std::proofs::lemmas::Grind::common_steps, crate::proofs::ActionTokens::texts_length, crate::proofs::ActionTokens::texts_between))]
pub fn read_guard(
    alloc: Global,
    lines: &Lines,
    row: usize,
    from: usize,
    to: usize,
    vars: &Vars,
) -> Result<Guard, ExprFault>
    requires row { row < length lines.now.rows }
    requires order { from ≤ to }
    requires end { to ≤ length (row_at (rows_in lines.now) row).tokens }
    requires fit { are_fit vars.now ≡ true }
    ensures ok { IfOk result (λ guard. IsTest vars.now (tokens_at lines.now row from to) (test_of guard)) }
    ensures range { IfOk result (λ guard. is_in_range vars.now (test_of guard) ≡ true) }
    ensures err { IfErr result (IsGuardFault vars.now (tokens_at lines.now row from to)) }
{
    let lexemes = lines.lexemes(alloc, row)?;
    guard_of(alloc, &lexemes.as_slice()[from..to], vars)
}

/// The action that the tokens of a row from one place up to another are.
///
/// It fails where they are no action, where they set a variable twice, where they name what there is not, and where
/// there is no memory.
#[tactic(auto, using(std::proofs::lemmas::Grind::common_steps, crate::proofs::ActionTokens::texts_length, crate::proofs::ActionTokens::texts_between))]
pub fn read_action(
    alloc: Global,
    lines: &Lines,
    row: usize,
    from: usize,
    to: usize,
    vars: &Vars,
) -> Result<Action, ExprFault>
    requires row { row < length lines.now.rows }
    requires order { from ≤ to }
    requires end { to ≤ length (row_at (rows_in lines.now) row).tokens }
    requires fit { are_fit vars.now ≡ true }
    ensures ok { IfOk result (AreAssigns vars.now (tokens_at lines.now row from to)) }
    ensures range { IfOk result (λ action. is_action_in_range vars.now action ≡ true) }
    ensures err { IfErr result (IsActionFault vars.now (tokens_at lines.now row from to)) }
{
    let lexemes = lines.lexemes(alloc, row)?;
    action_of(alloc, &lexemes.as_slice()[from..to], vars)
}
