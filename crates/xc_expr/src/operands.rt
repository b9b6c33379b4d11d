//! What the names in guards and actions stand for.

ghost use Rattle.std.specs.Prelude.{◌≡◌, ◌<◌, true, length, IfSome};
ghost use Rattle.std.specs.List.{position};
ghost use Rattle.xc_expr.specs.Called.{is_called};
ghost use Rattle.xc_base.specs.Names.{are_same};
ghost use Rattle.xc_forms.specs.Variables.{are_fit, values_at};
ghost use Rattle.xc_expr.specs.Resolving.{variable, value, peer};

use xc_base::{Word, find_name};
use xc_forms::{Domain, Vars};

fn is_called(domain: &Domain, name: &[u8]) -> bool
    ensures { result ≡ is_called name.now domain.now }
{
    name == domain.name.as_str().as_bytes()
}

fn find_variable(vars: &Vars, name: &[u8]) -> Option<usize>
    ensures { result ≡ position (is_called name.now) vars.now }
{
    vars.as_slice()
        .iter()
        .position(|domain| is_called(domain, name))
}

/// The variable of a name, where there is one.
#[tactic(auto, using(std::proofs::lemmas::Grind::common_steps, crate::proofs::KnownNames::variable_is, crate::proofs::KnownNames::variable_in_range))]
pub(crate) fn variable(vars: &Vars, name: &[u8]) -> Option<u8>
    requires { are_fit vars.now ≡ true }
    ensures is { result ≡ variable vars.now name.now }
    ensures range { IfSome result (λ x. x < length vars.now) }
{
    match find_variable(vars, name) {
        Some(place) => Some(place as u8),
        None => None,
    }
}

/// The value of a variable that has the name, where there is one.
pub(crate) fn value(vars: &Vars, var: u8, name: &[u8]) -> Option<u8>
    requires fit { are_fit vars.now ≡ true }
    requires range { var < length vars.now }
    ensures { result ≡ value vars.now var name.now }
{
    match find_name(vars.get(usize::from(var)).values.as_slice(), name) {
        Some(place) => Some(place as u8),
        None => None,
    }
}

fn have_same_names(left: &[Word], right: &[Word]) -> bool
    requires { length left.now ≡ length right.now }
    ensures { result ≡ are_same left.now right.now }
{
    for place in 0..left.len() {
        if left[place].as_str() != right[place].as_str() {
            return false;
        }
    }
    true
}

/// Whether two lists have the same names in the same order.
#[tactic(auto, using(crate::proofs::KnownNames::same_lengths))]
fn are_same(left: &[Word], right: &[Word]) -> bool
    ensures { result ≡ are_same left.now right.now }
{
    left.len() == right.len() && have_same_names(left, right)
}

/// The variable of a name, where it has the same list of values as another.
pub(crate) fn peer(vars: &Vars, var: u8, name: &[u8]) -> Option<u8>
    requires fit { are_fit vars.now ≡ true }
    requires range { var < length vars.now }
    ensures { result ≡ peer vars.now var name.now }
{
    let other = variable(vars, name)?;
    let values = vars.get(usize::from(var)).values.as_slice();
    let others = vars.get(usize::from(other)).values.as_slice();
    if are_same(values, others) {
        Some(other)
    } else {
        None
    }
}
