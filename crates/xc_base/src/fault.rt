//! What can be wrong with a text and with a file of statements.

use crate::memory::Memory;
use crate::word::Word;

/// Why a text could not be cut into lines.
#[derive(Clone, Copy, Debug, PartialEq, Eq)]
pub enum TextFault {
    /// It has more bytes than the limit.
    LongFile,
    /// A byte stands in that line that no text may have.
    BadByte { line: u32 },
    /// That line has more than 4,096 bytes.
    LongLine { line: u32 },
    Memory,
}

/// Why the statements of a file are refused: its first fault.
#[derive(Debug, Drop)]
pub enum FileFault {
    /// The line is no statement that is due there.
    NoStatement {
        line: u32,
    },
    /// The line says again what may be said once.
    Repeated {
        line: u32,
    },
    /// The line names what there is not.
    Unknown {
        line: u32,
    },
    /// The line passes a limit, with the number that does.
    Count {
        line: u32,
        what: Counted,
        found: u64,
    },
    /// No line is at fault, and the file lacks a part.
    Missing {
        part: Part,
    },
}

/// What a limit counts.
#[derive(Clone, Copy, Debug, PartialEq, Eq)]
pub enum Counted {
    Elements,
    Values,
    States,
    Commands,
    Props,
    Uses,
    Formulas,
    Nodes,
    Text,
    Lines,
}

/// A part that a file may lack.
#[derive(Debug, Drop)]
pub enum Part {
    Head,
    Elements,
    /// The negation of that element.
    Not(Word),
    Lattice,
    Var,
    Init,
    Uses,
    Formula,
    Claim,
    Root,
    Line,
}

/// Why a reader of statements gives no value.
#[derive(Debug, Drop)]
pub enum Stop {
    File(FileFault),
    Memory,
}

impl From<Memory> for Stop {
    ghost use Rattle.std.specs.Prelude.{◌≡◌};
    ghost use Rattle.xc_base.specs.declared.fault.Stop.TheVariants.{Memory as NoMemory};

    ghost from_gives = { λ _ e. e ≡ NoMemory };

    fn from(_e: Memory) -> Stop {
        Stop::Memory
    }
}

impl From<Memory> for TextFault {
    ghost use Rattle.std.specs.Prelude.{◌≡◌};
    ghost use Rattle.xc_base.specs.declared.fault.TextFault.TheVariants.{Memory as NoMemory};

    ghost from_gives = { λ _ e. e ≡ NoMemory };

    fn from(_e: Memory) -> TextFault {
        TextFault::Memory
    }
}
