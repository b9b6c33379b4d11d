use xc_ctl::{Kind, Rounds};
use xc_machine::Machine;

/// A node of a formula over a machine, and the table that tells its values.
#[derive(Drop)]
pub(crate) struct Told<'a, T: Rounds> {
    pub(crate) machine: &'a Machine,
    pub(crate) nodes: &'a [Kind],
    pub(crate) node: u16,
    pub(crate) table: &'a T,
}
