//! Actions from tokens, with the reason where there is none.

ghost use Rattle.std.specs.Prelude.{◌≡◌, true, map, IfOk, IfErr};
ghost use Rattle.xc_base.specs.Lines.{texts};
ghost use Rattle.xc_forms.specs.Variables.{are_fit};
ghost use Rattle.xc_expr.specs.Actions.{is_action_in_range};
ghost use Rattle.xc_expr.specs.Written.{set};
ghost use Rattle.xc_expr.specs.Outcomes.{AreAssigns, IsActionFault};
ghost use Rattle.xc_expr.specs.ActionOutcomes.{AreKnown, IsNameFault};

use crate::action_names::{resolve_action, sets_twice};
use crate::action_parser::parse_action;
use crate::assign::Action;
use crate::fault::ExprFault;
use crate::setting::Setting;
use std::alloc::Global;
use xc_base::Lexeme;
use xc_forms::Vars;

fn resolve_once(alloc: Global, settings: &[Setting], vars: &Vars) -> Result<Action, ExprFault>
    requires { are_fit vars.now ≡ true }
    ensures ok { IfOk result (AreKnown vars.now (map set settings.now)) }
    ensures range { IfOk result (λ action. is_action_in_range vars.now action ≡ true) }
    ensures err { IfErr result (IsNameFault vars.now (map set settings.now)) }
{
    if sets_twice(settings) {
        return Err(ExprFault::Repeated);
    }
    match resolve_action(alloc, settings, vars)? {
        Some(action) => Ok(action),
        None => Err(ExprFault::Unknown),
    }
}

/// The action that the tokens are.
#[tactic(auto, using(crate::proofs::ActionOutcomes::are_assigns, crate::proofs::ActionOutcomes::is_fault))]
pub(crate) fn action_of(alloc: Global, tokens: &[Lexeme], vars: &Vars) -> Result<Action, ExprFault>
    requires { are_fit vars.now ≡ true }
    ensures ok { IfOk result (AreAssigns vars.now (texts tokens.now)) }
    ensures range { IfOk result (λ action. is_action_in_range vars.now action ≡ true) }
    ensures err { IfErr result (IsActionFault vars.now (texts tokens.now)) }
{
    match parse_action(alloc, tokens)? {
        Some(settings) => resolve_once(alloc, settings.as_slice(), vars),
        None => Err(ExprFault::Grammar),
    }
}
