//! The states of viewpoints, as codes of places.

ghost use Rattle.std.specs.Prelude.{◌≡◌, ◌<◌, true, length};
ghost use Rattle.xc_theory.specs.Codes.{total, code_of, AreDigits};
ghost use Rattle.xc_forms.specs.Variables.{are_fit, sizes_of};
ghost use Rattle.xc_sigmap.specs.Maps.{value_of as map_of};

use crate::merged::Merged;
use xc_forms::Vars;
use xc_moves::places_of;

/// The state of some places of variables.
pub(crate) fn code_in(vars: &Vars, row: &[u8]) -> u32
    requires fit { are_fit vars.now ≡ true }
    requires row { AreDigits (sizes_of vars.now) row.now }
    ensures code { result ≡ code_of (sizes_of vars.now) row.now }
    ensures below { result < total (sizes_of vars.now) }
{
    let mut code = 0;
    for x in 0..vars.len() {
        code = code * vars.get(x).values.len() as u32 + u32::from(row[x]);
    }
    code
}

impl Merged {
    ghost use Rattle.xc_merge.specs.Merges.{viewpoint_at};
    ghost use Rattle.xc_merge.specs.Projections.{projection, states_of};
    ghost use Rattle.xc_merged.specs.Gathered.{merged_of};

    /// The state of a viewpoint's view that the viewpoint sees of a state.
    pub fn project(&self, v: usize, s: u32) -> u32
        requires v { v < length self.now.views }
        requires s { s < states_of (map_of self.now.sigmap) }
        ensures value { result ≡ projection (map_of self.now.sigmap) v (viewpoint_at (merged_of self.now) v) s }
        ensures below { result < total (sizes_of (viewpoint_at (merged_of self.now) v).view.vars) }
    {
        self.sigmap.is_sound();
        let held = self.sigmap.vars();
        let full = places_of(held, s);
        let row = &full[..held.len()];
        let places = self.seen(v, row);
        let pair = self.views.get(v);
        let view = &pair.0;
        view.is_sound();
        let vars = view.vars();
        let count = vars.len();
        let seen = &places[..count];
        code_in(vars, seen)
    }
}
