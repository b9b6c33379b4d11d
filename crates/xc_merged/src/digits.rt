//! What all viewpoints give to a step or to a proposition.

ghost use Rattle.std.specs.Prelude.{◌≡◌, ◌<◌, length, take};
ghost use Rattle.xc_theory.specs.Codes.{AreDigits};
ghost use Rattle.xc_alg.specs.Products.{sizes};
ghost use Rattle.xc_sigmap.specs.Maps.{value_of as map_of};

use crate::merged::Merged;
use xc_moves::places_of;

impl Merged {
    ghost use Rattle.xc_merge.specs.Merges.{for_each, parts_of};
    ghost use Rattle.xc_merge.specs.Projections.{states_of};
    ghost use Rattle.xc_merge.specs.MergedFrames.{step_digit, prop_digit};
    ghost use Rattle.xc_merged.specs.Gathered.{merged_of};

    /// What each viewpoint gives to the step from one state to another, as the first entries of a row.
    pub fn step_digits(&self, s: u32, t: u32) -> [u8; 8]
        requires s { s < states_of (map_of self.now.sigmap) }
        requires t { t < states_of (map_of self.now.sigmap) }
        ensures values { take (length self.now.views) result ≡ for_each (merged_of self.now) (step_digit (map_of self.now.sigmap) s t) }
        ensures digits { AreDigits (sizes (parts_of (merged_of self.now))) (take (length self.now.views) result) }
    {
        self.sigmap.is_sound();
        let vars = self.sigmap.vars();
        let first = places_of(vars, s);
        let second = places_of(vars, t);
        let from = &first[..vars.len()];
        let to = &second[..vars.len()];
        let mut digits = [0; 8];
        for v in 0..self.views.len() {
            digits[v] = self.step_digit(v, s, t, from, to);
        }
        digits
    }

    /// What each viewpoint gives to a proposition of the map at a state, as the first entries of a row.
    pub fn prop_digits(&self, k: usize, s: u32) -> [u8; 8]
        requires k { k < length (map_of self.now.sigmap).props }
        requires s { s < states_of (map_of self.now.sigmap) }
        ensures values { take (length self.now.views) result ≡ for_each (merged_of self.now) (prop_digit (map_of self.now.sigmap) k s) }
        ensures digits { AreDigits (sizes (parts_of (merged_of self.now))) (take (length self.now.views) result) }
    {
        self.sigmap.is_sound();
        let vars = self.sigmap.vars();
        let places = places_of(vars, s);
        let row = &places[..vars.len()];
        let mut digits = [0; 8];
        for v in 0..self.views.len() {
            digits[v] = self.prop_digit(v, k, s, row);
        }
        digits
    }
}
