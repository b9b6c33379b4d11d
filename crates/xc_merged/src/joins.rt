//! Joins of the elements of commands that lead on, and of lines that hold.

ghost use Rattle.std.specs.Prelude.{◌≡◌, ◌≤◌, ◌<◌, ◌&&◌, true, length, map, if◌then◌else◌};
ghost use Rattle.std.specs.List.{list_all};
ghost use Rattle.xc_theory.specs.Codes.{AreDigits};
ghost use Rattle.xc_alg.specs.Products.{product};
ghost use Rattle.xc_forms.specs.Variables.{are_fit, sizes_of};
ghost use Rattle.xc_merged.specs.Joins.{both, has_action_in, has_guard_in, has_test_in, holds_there, joined_from, leads_to};
ghost use Rattle.xc_merged.specs.Tabled.{AreWeights};

use xc_alg::Algebra;
use xc_forms::Vars;
use xc_moves::{holds_in, moves_in};
use xc_view::{Command, PropLine};

/// A code joined with a weight that passes.
fn joined_if<A: Algebra>(algebra: &A, passes: bool, weight: u8, sum: u16) -> u16
    requires weight { weight < (product (A.parts algebra.now)).size }
    requires sum { sum < (product (A.parts algebra.now)).size }
    ensures below { result < (product (A.parts algebra.now)).size }
    ensures sum { result ≡ (if passes then (product (A.parts algebra.now)).join weight sum else sum) }
{
    if passes {
        algebra.join(u16::from(weight), sum)
    } else {
        sum
    }
}

/// Whether a command leads from some places to others.
#[tactic(auto, using(std::proofs::lemmas::Grind::common_steps, crate::proofs::Joining::digits_count))]
fn leads(vars: &Vars, command: &Command, from: &[u8], to: &[u8]) -> bool
    requires fit { are_fit vars.now ≡ true }
    requires guard { has_guard_in vars.now command.now ≡ true }
    requires action { has_action_in vars.now command.now ≡ true }
    requires from { AreDigits (sizes_of vars.now) from.now }
    requires to { AreDigits (sizes_of vars.now) to.now }
    ensures { result ≡ leads_to (sizes_of vars.now) from.now to.now command.now }
{
    holds_in(&command.guard, vars, from) && moves_in(&command.action, vars, from, to)
}

/// The join of the weights of the commands that lead from some places to others, and of one more element.
#[tactic(auto, using(std::proofs::lemmas::Grind::common_steps, crate::proofs::Joining::passes, crate::proofs::Joining::none_joined, crate::proofs::Joining::weight_in))]
pub(crate) fn step_join<A: Algebra>(
    algebra: &A,
    vars: &Vars,
    commands: &[Command],
    weights: &[u8],
    base: u8,
    from: &[u8],
    to: &[u8],
) -> u8
    requires fit { are_fit vars.now ≡ true }
    requires guards { list_all (has_guard_in vars.now) commands.now ≡ true }
    requires actions { list_all (has_action_in vars.now) commands.now ≡ true }
    requires count { length weights.now ≡ length commands.now }
    requires weights { AreWeights (product (A.parts algebra.now)).size weights.now }
    requires base { base < (product (A.parts algebra.now)).size }
    requires from { AreDigits (sizes_of vars.now) from.now }
    requires to { AreDigits (sizes_of vars.now) to.now }
    requires small { (product (A.parts algebra.now)).size ≤ 256 }
    ensures below { result < (product (A.parts algebra.now)).size }
    ensures sum { result ≡ joined_from (product (A.parts algebra.now)) base weights.now (map (leads_to (sizes_of vars.now) from.now to.now) commands.now) 0 }
{
    let mut sum = u16::from(base);
    for i in (0..commands.len()).rev() {
        let passes = leads(vars, &commands[i], from, to);
        sum = joined_if(algebra, passes, weights[i], sum);
    }
    sum as u8
}

/// Whether a line counts and holds at some places.
fn tells(vars: &Vars, line: &PropLine, counts: bool, from: &[u8]) -> bool
    requires test { has_test_in vars.now line.now ≡ true }
    requires from { length from.now ≡ length vars.now }
    ensures { result ≡ (counts && holds_there from.now line.now) }
{
    counts && holds_in(&line.guard, vars, from)
}

/// The join of the marks of the lines that count and hold at some places, and of one more element.
#[tactic(auto, using(std::proofs::lemmas::Grind::common_steps, crate::proofs::Joining::passes, crate::proofs::Joining::none_joined, crate::proofs::Joining::weight_in))]
pub(crate) fn prop_join<A: Algebra>(
    algebra: &A,
    vars: &Vars,
    lines: &[PropLine],
    marks: &[u8],
    counts: &[bool],
    base: u8,
    from: &[u8],
) -> u8
    requires tests { list_all (has_test_in vars.now) lines.now ≡ true }
    requires count { length marks.now ≡ length lines.now }
    requires counts { length counts.now ≡ length lines.now }
    requires marks { AreWeights (product (A.parts algebra.now)).size marks.now }
    requires base { base < (product (A.parts algebra.now)).size }
    requires from { length from.now ≡ length vars.now }
    requires small { (product (A.parts algebra.now)).size ≤ 256 }
    ensures below { result < (product (A.parts algebra.now)).size }
    ensures sum { result ≡ joined_from (product (A.parts algebra.now)) base marks.now (both counts.now (map (holds_there from.now) lines.now)) 0 }
{
    let mut sum = u16::from(base);
    for i in (0..lines.len()).rev() {
        let passes = tells(vars, &lines[i], counts[i], from);
        sum = joined_if(algebra, passes, marks[i], sum);
    }
    sum as u8
}
