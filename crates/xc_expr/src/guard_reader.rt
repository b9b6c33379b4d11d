//! Guards from tokens, with the reason where there is none.

ghost use Rattle.std.specs.Prelude.{◌≡◌, true, IfOk, IfErr};
ghost use Rattle.xc_base.specs.Lines.{texts};
ghost use Rattle.xc_forms.specs.Variables.{are_fit};
ghost use Rattle.xc_expr.specs.Tests.{test_of, is_in_range};
ghost use Rattle.xc_expr.specs.Outcomes.{IsTest, IsGuardFault};

use crate::fault::ExprFault;
use crate::guard::Guard;
use crate::guard_names::resolve_guard;
use crate::guard_parser::parse_guard;
use std::alloc::Global;
use xc_base::Lexeme;
use xc_forms::Vars;

/// The guard that the tokens are.
#[tactic(auto, using(crate::proofs::GuardOutcomes::guard_steps))]
pub(crate) fn guard_of(alloc: Global, tokens: &[Lexeme], vars: &Vars) -> Result<Guard, ExprFault>
    requires { are_fit vars.now ≡ true }
    ensures ok { IfOk result (λ guard. IsTest vars.now (texts tokens.now) (test_of guard)) }
    ensures range { IfOk result (λ guard. is_in_range vars.now (test_of guard) ≡ true) }
    ensures err { IfErr result (IsGuardFault vars.now (texts tokens.now)) }
{
    let Some(phrase) = parse_guard(alloc, tokens)? else {
        return Err(ExprFault::Grammar);
    };
    match resolve_guard(alloc, &phrase, vars)? {
        Some(guard) => Ok(guard),
        None => Err(ExprFault::Unknown),
    }
}
