ghost use Rattle.std.specs.Prelude.{◌≡◌, ◌<◌, ◌≤◌, true, take, length, slice_index};
ghost use Rattle.xc_theory.specs.Codes.{total, digits};
ghost use Rattle.xc_forms.specs.Variables.{are_fit, sizes_of};

use xc_forms::Vars;

/// How many values a variable has.
pub(crate) fn size_of(vars: &Vars, place: usize) -> u32
    requires fit { are_fit vars.now ≡ true }
    requires range { place < length vars.now }
    ensures is { result ≡ slice_index (sizes_of vars.now) place }
    ensures some { 0 < result }
    ensures few { result ≤ 16 }
{
    vars.get(place).values.len() as u32
}

/// The places of the variables at a state, as the first entries of a row.
#[tactic(auto, using(std::proofs::lemmas::Grind::common_steps, crate::proofs::Moving::sizes_length, crate::proofs::Placing::rest_below, crate::proofs::Placing::placed, crate::proofs::Placing::none_placed, crate::proofs::Placing::all_placed))]
pub fn places_of(vars: &Vars, state: u32) -> [u8; 20]
    requires fit { are_fit vars.now ≡ true }
    requires state { state < total (sizes_of vars.now) }
    ensures { take (length vars.now) result ≡ digits (sizes_of vars.now) state }
{
    let mut row = [0; 20];
    let mut rest = state;
    for place in (0..vars.len()).rev() {
        let size = size_of(vars, place);
        row[place] = (rest % size) as u8;
        rest /= size;
    }
    row
}
