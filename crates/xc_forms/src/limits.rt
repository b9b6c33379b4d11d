//! The limits of what lines declare.

ghost use Rattle.std.specs.Prelude.{◌≡◌, ◌+◌, ◌≤◌, true, length};
ghost use Rattle.std.specs.List.{list_all};
ghost use Rattle.xc_theory.specs.Codes.{total};
ghost use Rattle.xc_base.specs.Deciding.{excess_fault};
ghost use Rattle.xc_forms.specs.Variables.{sizes_of, is_domain, state_limit};
ghost use Rattle.xc_forms.specs.VariableLines.{line_excess, var_excess};

use crate::count::state_count;
use crate::domain::Vars;
use xc_base::{Counted, FileFault};

/// The limit that a variable of so many values passes behind others.
#[tactic(auto, using(crate::proofs::Sizes::total_push))]
pub fn var_fault(vars: &Vars, size: usize, line: u32) -> Option<FileFault>
    requires domains { list_all is_domain vars.now ≡ true }
    requires few { total (sizes_of vars.now) ≤ state_limit }
    ensures { result ≡ excess_fault line (var_excess (sizes_of vars.now) size) }
{
    if size < 2 || size > 16 {
        return Some(FileFault::Count {
            line,
            what: Counted::Values,
            found: size as u64,
        });
    }
    let states = u64::from(state_count(vars)) * size as u64;
    if states > 1_048_576 {
        return Some(FileFault::Count {
            line,
            what: Counted::States,
            found: states,
        });
    }
    None
}

/// The limit that one line more of a kind passes.
pub fn line_fault(count: usize, limit: usize, what: Counted, line: u32) -> Option<FileFault>
    requires within { count ≤ limit }
    requires small { limit ≤ 256 }
    ensures { result ≡ excess_fault line (line_excess limit count (record { what = what; found = count + 1 })) }
{
    if count < limit {
        return None;
    }
    Some(FileFault::Count {
        line,
        what,
        found: count as u64 + 1,
    })
}
