//! What holds of each merged machine.

ghost use Rattle.std.specs.Prelude.{◌≡◌, ◌<◌, ◌≤◌, ℕ, true, length};
ghost use Rattle.xc_theory.specs.Codes.{total};
ghost use Rattle.xc_alg.specs.Products.{sizes};
ghost use Rattle.xc_view.specs.Parts.{is_sound as is_view_sound};
ghost use Rattle.xc_sigmap.specs.Sound.{is_sound as is_map_sound};
ghost use Rattle.xc_ctl.specs.Frames.{IsFrame};
ghost use Rattle.xc_merge.specs.Merges.{viewpoint_at, parts_of};
ghost use Rattle.xc_merge.specs.MergedFrames.{merged_frame};
ghost use Rattle.xc_merged.specs.Tabled.{IsGood};

use crate::machine::Machine;

impl Machine {
    ghost use Rattle.xc_machine.specs.Machines.{merge_of};

    /// A merged machine is a frame over a product of at most 4,096 elements, of a map, views and lattices as their files are to be.
    pub fn is_framed(&self)
        ensures frame { IsFrame (merged_frame (merge_of self.now)) }
        ensures map { is_map_sound (merge_of self.now).plan ≡ true }
        ensures views { (v : ℕ) → v < length (merge_of self.now).viewpoints → is_view_sound (viewpoint_at (merge_of self.now) v).view ≡ true }
        ensures lattices { (v : ℕ) → v < length (merge_of self.now).viewpoints → IsGood (viewpoint_at (merge_of self.now) v).lattice }
        ensures elements { total (sizes (parts_of (merge_of self.now))) ≤ 4096 }
    {
        self.merged.sigmap.is_sound();
    }
}
