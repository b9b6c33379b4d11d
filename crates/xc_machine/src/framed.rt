//! The merged machine as what an engine evaluates over.

use crate::machine::Machine;
use xc_ctl::Framed;
use xc_product::Product;

impl Framed for Machine {
    ghost use Rattle.xc_merge.specs.MergedFrames.{merged_frame};
    ghost use Rattle.xc_machine.specs.Machines.{merge_of};
    ghost use Rattle.xc_machine.specs.AsFrame.{is_framed};

    ghost frame = { λ m. merged_frame (merge_of m) };

    type Ring = Product;

    #[tactic(auto, unfolding(xc_merge::specs::MergedFrames::merged_frame))]
    fn states(&self) -> u32 {
        Machine::states(self)
    }

    #[tactic(auto, unfolding(xc_merge::specs::MergedFrames::merged_frame))]
    fn step(&self, s: u32, t: u32) -> u16 {
        Machine::step(self, s, t)
    }

    #[tactic(auto, unfolding(xc_merge::specs::MergedFrames::merged_frame))]
    fn atom(&self, p: u16, s: u32) -> u16 {
        Machine::atom(self, p, s)
    }

    #[tactic(auto, unfolding(xc_merge::specs::MergedFrames::merged_frame))]
    fn product(&self) -> &Product {
        Machine::product(self)
    }

    ghost is_frame = { is_framed };
}
