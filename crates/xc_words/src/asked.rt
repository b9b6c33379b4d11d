use crate::file_name::FileName;

/// A kind of file that can be shown.
#[derive(Clone, Copy, Debug, PartialEq, Eq)]
pub enum ShowKind {
    /// A lattice.
    Lattice,
    /// A viewpoint.
    View,
    /// A map.
    Map,
}

/// What the words ask for.
#[derive(Debug, Drop)]
pub enum Request {
    /// To judge the lattice in that file.
    Lattice {
        file: FileName,
    },
    /// To evaluate formulas over the machine that a map merges: with witnesses, by the explicit engine, or with the sizes of
    /// diagrams, where these are set.
    Check {
        map: FileName,
        formulas: FileName,
        witness: bool,
        plain: bool,
        size: bool,
    },
    /// To show the file of that kind.
    Show {
        kind: ShowKind,
        file: FileName,
    },
    /// To evaluate a formula over the generated machine of that number and size.
    Gen {
        number: u32,
        size: u32,
    },
}
