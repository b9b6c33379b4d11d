//! The table of a formula's nodes over a machine.

ghost use Rattle.std.specs.Prelude.{◌≡◌};
ghost use Rattle.xc_plain.specs.Nodes.{IsShaped, rounds_in};

use xc_base::List;
use xc_ctl::Rounds;

/// What each node of a formula denotes on a machine, and the rounds in which its fixpoints are reached.
#[derive(Debug, Drop)]
pub struct PlainTable {
    states: u32,
    nodes: List<List<List<u16>>>,
    ghost shaped: { IsShaped states nodes },
}

impl PlainTable {
    ghost use Rattle.xc_plain.specs.Tables.{table_of};

    /// The table of these rows, for each node its rounds.
    pub(crate) fn of(states: u32, nodes: List<List<List<u16>>>) -> PlainTable
        requires { IsShaped states nodes }
        ensures { table_of result ≡ rounds_in states nodes }
    {
        PlainTable { states, nodes }
    }
}

impl Rounds for PlainTable {
    ghost use Rattle.xc_plain.specs.Tables.{table_of};

    ghost table = { table_of };

    fn states(&self) -> u32 {
        self.states
    }

    fn rounds(&self, node: u16) -> u32 {
        (self.nodes.get(usize::from(node)).len() - 1) as u32
    }

    fn at(&self, node: u16, state: u32) -> u16 {
        let rows = self.nodes.get(usize::from(node));
        *rows.get(rows.len() - 1).get(state as usize)
    }

    fn round_at(&self, node: u16, round: u32, state: u32) -> u16 {
        *self
            .nodes
            .get(usize::from(node))
            .get(round as usize)
            .get(state as usize)
    }
}
