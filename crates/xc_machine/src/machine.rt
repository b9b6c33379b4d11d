//! The merged machine.

ghost use Rattle.std.specs.Prelude.{◌≡◌, ◌≤◌, ◌<◌, ℕ, length, None};
ghost use Rattle.xc_theory.specs.Codes.{total};
ghost use Rattle.xc_alg.specs.Products.{product as algebra_of, sizes};
ghost use Rattle.xc_product.specs.Products.{parts_of as factors_of};
ghost use Rattle.xc_merge.specs.Faults.{merge_fault};
ghost use Rattle.xc_merge.specs.Merges.{parts_of, names_of_parts};
ghost use Rattle.xc_merge.specs.MergedFrames.{initials_of, merged_frame};
ghost use Rattle.xc_merged.specs.Gathered.{merged_of};

use crate::initials::{find_initials, is_initial};
use std::alloc::Global;
use xc_base::{List, Word};
use xc_lattice::Lattice;
use xc_merge::{MergeFault, find_fault};
use xc_merged::Merged;
use xc_product::Product;
use xc_sigmap::SigMap;
use xc_view::View;

/// The machine that several viewpoints merge to.
///
/// A state is the code of one place for each variable of the map; a value is the code of one element of each viewpoint's lattice.
#[derive(Drop)]
pub struct Machine {
    pub(crate) merged: Merged,
    product: Product,
    parts: List<List<Word>>,
    initials: List<u32>,
    ghost multiplied: { factors_of product ≡ parts_of (merged_of merged) },
    ghost small: { total (sizes (parts_of (merged_of merged))) ≤ 4096 },
    ghost named: { parts ≡ names_of_parts (merged_of merged) },
    ghost begins: { initials ≡ initials_of (merged_of merged) },
    ghost some: { 1 ≤ length initials },
    ghost few: { length initials ≤ 4096 },
    ghost faultless: { merge_fault (merged_of merged) ≡ None },
    // Both follow from the tables. They are kept since an `impl` shows a trait's laws by what the value keeps.
    ghost steps: { (s t : ℕ) → s < (merged_frame (merged_of merged)).states → t < (merged_frame (merged_of merged)).states → (merged_frame (merged_of merged)).relation s t < (algebra_of (merged_frame (merged_of merged)).parts).size },
    ghost values: { (p s : ℕ) → p < (merged_frame (merged_of merged)).props → s < (merged_frame (merged_of merged)).states → (merged_frame (merged_of merged)).prop p s < (algebra_of (merged_frame (merged_of merged)).parts).size },
}

impl Machine {
    ghost use Rattle.std.specs.Prelude.{IfOk, IfErr, []};
    ghost use Rattle.xc_alg.specs.Products.{product};
    ghost use Rattle.xc_forms.specs.Variables.{sizes_of};
    ghost use Rattle.xc_lattice.specs.Values.{value_of as lattice_of};
    ghost use Rattle.xc_view.specs.Views.{value_of as view_of};
    ghost use Rattle.xc_sigmap.specs.Maps.{value_of as map_of};
    ghost use Rattle.xc_merge.specs.Faults.{IsRefusal, all_faults};
    ghost use Rattle.xc_merge.specs.Merges.{viewpoint_at};
    ghost use Rattle.xc_merge.specs.MergedFrames.{is_merged_initial};
    ghost use Rattle.xc_merge.specs.Merging.{merge_in};
    ghost use Rattle.xc_merge.specs.Projections.{projection, states_of};
    ghost use Rattle.xc_machine.specs.Machines.{merge_of};

    /// The machine that a map and the views of its viewpoints, each with its lattice, merge to.
    pub fn of(
        alloc: Global,
        map: SigMap,
        views: List<(View, Lattice)>,
    ) -> Result<Machine, MergeFault>
        requires { length views ≡ length (map_of map).uses }
        ensures ok { IfOk result (λ m. (merge_of m ≡ merge_in map views) × (merge_fault (merge_in map views) ≡ None)) }
        ensures err { IfErr result (IsRefusal (merge_in map views)) }
    {
        find_fault(alloc, &map, &views)?;
        let merged = Merged::of(alloc, map, views)?;
        Machine::merge(alloc, merged)
    }

    /// The machine of viewpoints without faults.
    #[tactic(auto, using(std::proofs::lemmas::Grind::common_steps, crate::proofs::Beginnings::no_fault))]
    fn merge(alloc: Global, merged: Merged) -> Result<Machine, MergeFault>
        requires { all_faults (merged_of merged) ≡ [] }
        ensures ok { IfOk result (λ m. (merge_of m ≡ merged_of merged) × (merge_fault (merged_of merged) ≡ None)) }
        ensures err { IfErr result (IsRefusal (merged_of merged)) }
    {
        let product = merged.product(alloc)?;
        let parts = merged.part_names(alloc)?;
        let found = find_initials(alloc, &merged)?;
        if found.count == 0 {
            return Err(MergeFault::NoInitial);
        }
        if found.count > 4096 {
            return Err(MergeFault::Initial {
                count: u64::from(found.count),
            });
        }
        Ok(Machine {
            merged,
            product,
            parts,
            initials: found.states,
        })
    }

    /// Its viewpoints merge without a fault, and there is one for each that its map uses.
    pub fn is_sound(&self)
        ensures faultless { merge_fault (merge_of self.now) ≡ None }
        ensures one_each { length (merge_of self.now).viewpoints ≡ length (merge_of self.now).plan.uses }
    {}

    /// How many states it has.
    pub fn states(&self) -> u32
        ensures states { result ≡ states_of (merge_of self.now).plan }
        ensures some { 1 ≤ result }
        ensures few { result ≤ 1048576 }
    {
        self.merged.states()
    }

    /// Its map.
    pub fn map(&self) -> &SigMap
        ensures { map_of result.now ≡ (merge_of self.now).plan }
    {
        &self.merged.sigmap
    }

    /// How many viewpoints there are.
    pub fn viewpoints(&self) -> u8
        ensures count { result ≡ length (merge_of self.now).viewpoints }
        ensures some { 1 ≤ result }
        ensures few { result ≤ 8 }
    {
        self.merged.sigmap.is_sound();
        self.merged.views.len() as u8
    }

    /// A viewpoint's view.
    pub fn view(&self, v: u8) -> &View
        requires { v < length (merge_of self.now).viewpoints }
        ensures { view_of result.now ≡ (viewpoint_at (merge_of self.now) v).view }
    {
        let pair = self.merged.views.get(usize::from(v));
        &pair.0
    }

    /// The lattice of a viewpoint's values.
    pub fn lattice(&self, v: u8) -> &Lattice
        requires { v < length (merge_of self.now).viewpoints }
        ensures { lattice_of result.now ≡ (viewpoint_at (merge_of self.now) v).lattice }
    {
        let pair = self.merged.views.get(usize::from(v));
        &pair.1
    }

    /// The product of the viewpoints' lattices.
    pub fn product(&self) -> &Product
        ensures { factors_of result.now ≡ parts_of (merge_of self.now) }
    {
        &self.product
    }

    /// The names of the elements of each part of the product.
    pub fn parts(&self) -> &List<List<Word>>
        ensures { result.now ≡ names_of_parts (merge_of self.now) }
    {
        &self.parts
    }

    /// The initial states, in rising order.
    pub fn initials(&self) -> &List<u32>
        ensures initials { result.now ≡ initials_of (merge_of self.now) }
        ensures some { 1 ≤ length result.now }
        ensures few { length result.now ≤ 4096 }
    {
        &self.initials
    }

    /// The value of the step from one state to another.
    pub fn step(&self, s: u32, t: u32) -> u16
        requires from { s < states_of (merge_of self.now).plan }
        requires to { t < states_of (merge_of self.now).plan }
        ensures value { result ≡ (merged_frame (merge_of self.now)).relation s t }
        ensures below { result < (product (parts_of (merge_of self.now))).size }
    {
        let digits = self.merged.step_digits(s, t);
        let row = &digits[..self.merged.views.len()];
        self.product.code(row)
    }

    /// The value of a proposition of the map at a state.
    pub fn atom(&self, p: u16, s: u32) -> u16
        requires prop { p < length (merge_of self.now).plan.props }
        requires state { s < states_of (merge_of self.now).plan }
        ensures value { result ≡ (merged_frame (merge_of self.now)).prop p s }
        ensures below { result < (product (parts_of (merge_of self.now))).size }
    {
        let digits = self.merged.prop_digits(usize::from(p), s);
        let row = &digits[..self.merged.views.len()];
        self.product.code(row)
    }

    /// Whether a state is initial.
    pub fn is_initial(&self, s: u32) -> bool
        requires { s < states_of (merge_of self.now).plan }
        ensures { result ≡ is_merged_initial (merge_of self.now) s }
    {
        is_initial(&self.merged, s)
    }

    /// The state of a viewpoint's view that the viewpoint sees of a state.
    pub fn project(&self, v: u8, s: u32) -> u32
        requires viewpoint { v < length (merge_of self.now).viewpoints }
        requires state { s < states_of (merge_of self.now).plan }
        ensures value { result ≡ projection (merge_of self.now).plan v (viewpoint_at (merge_of self.now) v) s }
        ensures below { result < total (sizes_of (viewpoint_at (merge_of self.now) v).view.vars) }
    {
        self.merged.project(usize::from(v), s)
    }
}
