//! What a guard says where some places are known.

ghost use Rattle.std.specs.Prelude.{◌≡◌, ◌&&◌, true, length};
ghost use Rattle.xc_expr.specs.Tests.{test_of, is_in_range};
ghost use Rattle.xc_machine.specs.Judging.{said, opposite, in_both, in_one, judged};

use xc_expr::Guard;
use xc_forms::Vars;

/// What is said where not all places are known.
#[derive(Clone, Copy, Debug, PartialEq, Eq)]
pub(crate) enum Judgement {
    Holds,
    Fails,
    Open,
}

impl Judgement {
    /// What a truth value says, where it is known.
    pub(crate) fn of(known: bool, holds: bool) -> Judgement
        ensures { result ≡ said known holds }
    {
        if !known {
            Judgement::Open
        } else if holds {
            Judgement::Holds
        } else {
            Judgement::Fails
        }
    }

    pub(crate) fn opposite(self) -> Judgement
        ensures { result ≡ opposite self }
    {
        match self {
            Judgement::Holds => Judgement::Fails,
            Judgement::Fails => Judgement::Holds,
            Judgement::Open => Judgement::Open,
        }
    }

    /// What is said of both.
    pub(crate) fn and(self, other: Judgement) -> Judgement
        ensures { result ≡ in_both self other }
    {
        match (self, other) {
            (Judgement::Fails, _) | (_, Judgement::Fails) => Judgement::Fails,
            (Judgement::Holds, Judgement::Holds) => Judgement::Holds,
            _ => Judgement::Open,
        }
    }

    /// What is said of one or both.
    pub(crate) fn or(self, other: Judgement) -> Judgement
        ensures { result ≡ in_one self other }
    {
        self.opposite().and(other.opposite()).opposite()
    }
}

/// What a guard says of places of which some are known.
pub(crate) fn judge(guard: &Guard, vars: &Vars, places: &[u8], known: &[bool]) -> Judgement
    requires guard { is_in_range vars.now (test_of guard.now) ≡ true }
    requires places { length places.now ≡ length vars.now }
    requires known { length known.now ≡ length vars.now }
    ensures { result ≡ judged (test_of guard.now) places.now known.now }
{
    match guard {
        Guard::True => Judgement::Holds,
        Guard::False => Judgement::Fails,
        Guard::Is { var, value } => {
            let var = usize::from(*var);
            Judgement::of(known[var], places[var] == *value)
        }
        Guard::IsNot { var, value } => {
            let var = usize::from(*var);
            Judgement::of(known[var], places[var] != *value)
        }
        Guard::Same { left, right } => {
            let left = usize::from(*left);
            let right = usize::from(*right);
            Judgement::of(known[left] && known[right], places[left] == places[right])
        }
        Guard::Differ { left, right } => {
            let left = usize::from(*left);
            let right = usize::from(*right);
            Judgement::of(known[left] && known[right], places[left] != places[right])
        }
        Guard::Not(inner) => judge(inner, vars, places, known).opposite(),
        Guard::And(left, right) => {
            judge(left, vars, places, known).and(judge(right, vars, places, known))
        }
        Guard::Or(left, right) => {
            judge(left, vars, places, known).or(judge(right, vars, places, known))
        }
    }
}
