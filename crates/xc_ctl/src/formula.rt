ghost use Rattle.std.specs.Prelude.{◌≡◌, true};
ghost use Rattle.xc_ctl.specs.Tables.{is_table};

use crate::kind::Kind;
use xc_base::List;

/// A formula as the table of its nodes, 1 to 256. Children stand before parents, and the last node is the formula.
#[derive(Debug, Drop)]
pub struct Formula {
    nodes: List<Kind>,
    ghost table: { is_table nodes ≡ true },
}

impl Formula {
    /// The formula of a table.
    pub fn of(nodes: List<Kind>) -> Formula
        requires { is_table nodes ≡ true }
        ensures { result.nodes ≡ nodes }
    {
        Formula { nodes }
    }

    /// Its nodes.
    pub fn nodes(&self) -> &List<Kind>
        ensures nodes { result.now ≡ self.now.nodes }
        ensures table { is_table self.now.nodes ≡ true }
    {
        &self.nodes
    }
}

/// The formulas of a file, in order.
#[derive(Debug, Drop)]
pub struct Formulas {
    pub items: List<Formula>,
}
