//! What an engine evaluates formulas over.

ghost use Rattle.std.specs.Prelude.{◌≡◌, ◌<◌};
ghost use Rattle.xc_alg.specs.Products.{product};
ghost use Rattle.xc_ctl.specs.Frames.{Frame, IsFrame};

use xc_alg::Algebra;

/// A machine whose transitions and propositions have elements of an algebra as their values.
pub trait Framed {
    ghost frame: { Self → Frame };

    /// The algebra of the values.
    type Ring: Algebra;

    /// The number of states.
    fn states(&self) -> u32
        ensures { result ≡ (frame self.now).states };

    /// The value of the transition from the first state to the second.
    fn step(&self, s: u32, t: u32) -> u16
        requires from { s < (frame self.now).states }
        requires to { t < (frame self.now).states }
        ensures { result ≡ (frame self.now).relation s t };

    /// The value of a proposition at a state.
    fn atom(&self, p: u16, s: u32) -> u16
        requires prop { p < (frame self.now).props }
        requires state { s < (frame self.now).states }
        ensures { result ≡ (frame self.now).prop p s };

    /// The algebra.
    fn product(&self) -> &Self::Ring
        ensures { Self.Ring.parts result.now ≡ (frame self.now).parts };

    ghost is_frame: { (x : Self) → IsFrame (frame x) };
}

/// The values of every such machine are elements of its algebra, whose parts are lawful.
pub fn machines_are_frames<M: Framed>()
    ensures { (x : M) → IsFrame (M.frame x) }
{}

/// The meet of the transition from the first state to the second with a value.
pub fn weighed<M: Framed>(machine: &M, s: u32, t: u32, value: u16) -> u16
    requires from { s < (M.frame machine.now).states }
    requires to { t < (M.frame machine.now).states }
    requires value { value < (product (M.frame machine.now).parts).size }
    ensures range { result < (product (M.frame machine.now).parts).size }
    ensures value { let frame = M.frame machine.now in result ≡ (product frame.parts).meet (frame.relation s t) value }
{
    machine.product().meet(machine.step(s, t), value)
}
