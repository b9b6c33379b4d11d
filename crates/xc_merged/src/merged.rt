//! A map with its viewpoints, and what each of them gives to steps and propositions.

ghost use Rattle.std.specs.Prelude.{◌≡◌, ◌<◌, ◌≤◌, ◌==◌, ℕ, true, length, take};
ghost use Rattle.std.specs.List.{slice_index_or};
ghost use Rattle.xc_theory.specs.Codes.{AreDigits};
ghost use Rattle.xc_theory.specs.Lattices.{size};
ghost use Rattle.xc_forms.specs.Variables.{sizes_of};
ghost use Rattle.xc_sigmap.specs.Maps.{value_of as map_of};
ghost use Rattle.xc_lattice.specs.declared.lattice.Lattice.{Lattice as Algebraic};
ghost use Rattle.xc_view.specs.declared.view.View.{View as Viewed};
ghost use Rattle.xc_merge.specs.Merges.{viewpoint_at};
ghost use Rattle.xc_merge.specs.Merging.{viewpoint_of};
ghost use Rattle.xc_merge.specs.Projections.{row_of, row_seen, states_of};
ghost use Rattle.xc_merge.specs.MergedFrames.{step_digit, prop_digit};
ghost use Rattle.xc_merged.specs.Tabled.{AreTables};
ghost use Rattle.xc_merged.specs.declared.tables.Tables.{Tables as Tabled};

use crate::elements::is_good;
use crate::joins::{prop_join, step_join};
use crate::seen::places_seen;
use crate::tables::Tables;
use xc_base::List;
use xc_forms::state_count;
use xc_lattice::Lattice;
use xc_sigmap::SigMap;
use xc_view::View;

/// A map, a view with its lattice for each of the map's viewpoints, and the tables of each.
#[derive(Drop)]
pub struct Merged {
    pub sigmap: SigMap,
    pub views: List<(View, Lattice)>,
    pub tables: List<Tables>,
    pub ghost one_each: { length views ≡ length (map_of sigmap).uses },
    pub ghost one_table_each: { length tables ≡ length views },
    pub ghost tabled: { (v : ℕ) (pair : Viewed × Algebraic) (t : Tabled) → v < length views → pair ≡ slice_index_or views v pair → t ≡ slice_index_or tables v t → AreTables (map_of sigmap) v (viewpoint_of pair) t },
}

impl Merged {
    ghost use Rattle.xc_merged.specs.Gathered.{merged_of};

    /// How many states the merged machine has.
    #[tactic(auto, using(std::proofs::lemmas::Grind::common_steps, crate::proofs::Sound::map_domains, crate::proofs::Sound::map_states))]
    pub fn states(&self) -> u32
        ensures states { result ≡ states_of (merged_of self.now).plan }
        ensures some { 1 ≤ result }
        ensures few { result ≤ 1048576 }
    {
        self.sigmap.is_sound();
        state_count(self.sigmap.vars())
    }

    /// The places that a viewpoint sees of places of the map's variables.
    #[tactic(auto, using(std::proofs::lemmas::Grind::common_steps))]
    pub fn seen(&self, v: usize, row: &[u8]) -> [u8; 20]
        requires v { v < length self.now.views }
        requires row { AreDigits (sizes_of (map_of self.now.sigmap).vars) row.now }
        ensures seen { let p = viewpoint_at (merged_of self.now) v in take (length p.view.vars) result ≡ row_seen (map_of self.now.sigmap) v p row.now }
        ensures digits { let p = viewpoint_at (merged_of self.now) v in AreDigits (sizes_of p.view.vars) (row_seen (map_of self.now.sigmap) v p row.now) }
    {
        self.sigmap.is_sound();
        let pair = self.views.get(v);
        pair.0.is_sound();
        let tables = self.tables.get(v);
        places_seen(&tables.feeds, row)
    }

    /// What a viewpoint gives to the step from one state to another.
    #[tactic(auto, using(std::proofs::lemmas::Grind::common_steps))]
    pub(crate) fn step_digit(&self, v: usize, s: u32, t: u32, from: &[u8], to: &[u8]) -> u8
        requires v { v < length self.now.views }
        requires s { s < states_of (map_of self.now.sigmap) }
        requires t { t < states_of (map_of self.now.sigmap) }
        requires from { from.now ≡ row_of (map_of self.now.sigmap) s }
        requires to { to.now ≡ row_of (map_of self.now.sigmap) t }
        ensures digit { result ≡ step_digit (map_of self.now.sigmap) s t v (viewpoint_at (merged_of self.now) v) }
        ensures below { result < size (viewpoint_at (merged_of self.now) v).lattice.algebra }
    {
        let first = self.seen(v, from);
        let second = self.seen(v, to);
        let pair = self.views.get(v);
        let view = &pair.0;
        view.is_sound();
        is_good(&pair.1);
        let tables = self.tables.get(v);
        let vars = view.vars();
        let commands = view.commands().as_slice();
        let count = vars.len();
        let here = &first[..count];
        let there = &second[..count];
        let base = tables.base(s == t, here, there);
        let weights = tables.weights.as_slice();
        step_join(
            &tables.operations,
            vars,
            commands,
            weights,
            base,
            here,
            there,
        )
    }

    /// What a viewpoint gives to a proposition of the map at a state.
    #[tactic(auto, using(std::proofs::lemmas::Grind::common_steps))]
    pub(crate) fn prop_digit(&self, v: usize, k: usize, s: u32, row: &[u8]) -> u8
        requires v { v < length self.now.views }
        requires k { k < length (map_of self.now.sigmap).props }
        requires s { s < states_of (map_of self.now.sigmap) }
        requires row { row.now ≡ row_of (map_of self.now.sigmap) s }
        ensures digit { result ≡ prop_digit (map_of self.now.sigmap) k s v (viewpoint_at (merged_of self.now) v) }
        ensures below { result < size (viewpoint_at (merged_of self.now) v).lattice.algebra }
    {
        let places = self.seen(v, row);
        let pair = self.views.get(v);
        let view = &pair.0;
        view.is_sound();
        is_good(&pair.1);
        let tables = self.tables.get(v);
        let telling = tables.tellings.get(k);
        match telling.fixed {
            Some(element) => element,
            None => {
                let vars = view.vars();
                let lines = view.props().as_slice();
                let count = vars.len();
                let seen = &places[..count];
                let marks = tables.marks.as_slice();
                let counts = telling.counts.as_slice();
                prop_join(
                    &tables.operations,
                    vars,
                    lines,
                    marks,
                    counts,
                    tables.bottom,
                    seen,
                )
            }
        }
    }
}
