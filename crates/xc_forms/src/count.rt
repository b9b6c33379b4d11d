ghost use Rattle.std.specs.Prelude.{◌≡◌, ◌≤◌, true};
ghost use Rattle.std.specs.List.{list_all};
ghost use Rattle.xc_theory.specs.Codes.{total};
ghost use Rattle.xc_forms.specs.Variables.{is_domain, sizes_of, state_limit};

use crate::domain::Vars;

/// How many states there are over the variables.
#[tactic(auto, using(crate::proofs::Counting::total_none, crate::proofs::Counting::stepped, crate::proofs::Counting::step_fits, crate::proofs::Counting::values_few))]
pub fn state_count(vars: &Vars) -> u32
    requires domains { list_all is_domain vars.now ≡ true }
    requires few { total (sizes_of vars.now) ≤ state_limit }
    ensures { result ≡ total (sizes_of vars.now) }
{
    let mut count = 1;
    for place in (0..vars.len()).rev() {
        count *= vars.get(place).values.len() as u32;
    }
    count
}
