ghost use Rattle.std.specs.Prelude.{◌≡◌, ◌<◌, ◌≤◌};
ghost use Rattle.xc_ctl.specs.Rounds.{RoundsTable};

/// What a formula denotes on a frame, node by node, and the rounds in which fixpoints are reached.
pub trait Rounds {
    ghost table: { Self → RoundsTable };

    /// The number of states.
    fn states(&self) -> u32
        ensures { result ≡ (table self.now).states };

    /// The number of rounds of a node.
    fn rounds(&self, node: u16) -> u32
        requires { node < (table self.now).nodes }
        ensures { result ≡ (table self.now).rounds node };

    /// The value of a node at a state.
    fn at(&self, node: u16, state: u32) -> u16
        requires node { node < (table self.now).nodes }
        requires state { state < (table self.now).states }
        ensures { result ≡ (table self.now).at node state };

    /// The value of a node at a state in a round.
    fn round_at(&self, node: u16, round: u32, state: u32) -> u16
        requires node { node < (table self.now).nodes }
        requires round { round ≤ (table self.now).rounds node }
        requires state { state < (table self.now).states }
        ensures { result ≡ (table self.now).round_at node round state };
}
