use std::alloc::{AllocError, AllocFailed, Global};
use std::fmt;

/// What is wrong with a name or a line.
#[derive(Clone, Copy)]
pub enum NameFault {
    /// It is the name of no key.
    NoKey,
    /// Two cases have it.
    Twice,
    NoStatus,
    /// Nothing of that name fails in turn.
    NoTurn,
    NoExample,
    NoEarlierCase,
    /// A change of the file of that name is none of those that there are.
    NoChange,
    LineAbsent,
    LineTwice,
}

/// What is wrong with a key of the format.
#[derive(Clone, Copy)]
pub enum KeyFault {
    /// It has to be there.
    Absent,
    /// It stands beside another that says the same.
    Second,
    /// Its value is not of the type.
    NotText,
    NotList,
    NotTexts,
    NotNumber,
    NotNumbers,
    NotTables,
    TooGreat,
}

/// What is wrong with a case as a whole.
#[derive(Clone, Copy)]
pub enum CaseFault {
    /// Two of them stand below one line `[[case]]`.
    Second,
    /// It is not known what comes of calls that fail in turn.
    TurnsNeedMore,
    /// A put takes nothing.
    NoPiece,
}

/// Why a case can't be run.
#[derive(Drop)]
pub enum Why {
    /// What the reader of the format says.
    Format(String),
    Name(NameFault, String),
    Key(KeyFault, &'static str),
    Case(CaseFault),
    /// A file ends before that byte.
    PastEnd(u64),
    OutOfMemory,
}

impl NameFault {
    /// What is told before the name.
    fn words(self) -> &'static str {
        match self {
            NameFault::NoKey => "there is no key",
            NameFault::Twice => "two cases have the name",
            NameFault::NoStatus => "no status is called",
            NameFault::NoTurn => "nothing that fails in turn is called",
            NameFault::NoExample => "no example file is called",
            NameFault::NoEarlierCase => "no earlier case is called",
            NameFault::NoChange => "a change is none of those that there are, of the file",
            NameFault::LineAbsent => "the text does not have the line",
            NameFault::LineTwice => "the text has more than once the line",
        }
    }
}

impl KeyFault {
    /// What is told behind the key.
    fn words(self) -> &'static str {
        match self {
            KeyFault::Absent => "has to be there",
            KeyFault::Second => "stands beside another that says the same",
            KeyFault::NotText => "has to be a text",
            KeyFault::NotList => "has to be a list",
            KeyFault::NotTexts => "has to be a list of texts",
            KeyFault::NotNumber => "has to be a number from 0 on",
            KeyFault::NotNumbers => "has to be a list of numbers from 0 on",
            KeyFault::NotTables => "has to be a list of tables",
            KeyFault::TooGreat => "is too great",
        }
    }
}

impl CaseFault {
    /// What is told of it.
    fn words(self) -> &'static str {
        match self {
            CaseFault::Second => "two cases stand below one line [[case]]",
            CaseFault::TurnsNeedMore => {
                "calls that fail in turn need the whole out and err, and the loads if they are loads"
            }
            CaseFault::NoPiece => "a piece has at least one byte",
        }
    }
}

impl fmt::Display for Why {
    fn fmt<W: fmt::Write>(&self, f: &mut fmt::Formatter<W>) -> fmt::Result {
        match self {
            Why::Format(said) => f.write_str(said.as_str()),
            Why::Name(fault, name) => write!(f, "{} {name:?}", fault.words()),
            Why::Key(fault, key) => write!(f, "{key:?} {}", fault.words()),
            Why::Case(fault) => f.write_str(fault.words()),
            Why::PastEnd(place) => write!(f, "the file ends before byte {place}"),
            Why::OutOfMemory => f.write_str("out of memory"),
        }
    }
}

impl From<AllocError> for Why {
    fn from(_e: AllocError) -> Why {
        Why::OutOfMemory
    }
}

impl<T: Drop> From<AllocFailed<T>> for Why {
    fn from(_e: AllocFailed<T>) -> Why {
        Why::OutOfMemory
    }
}

/// What is wrong with a name.
pub fn name_fault(alloc: Global, fault: NameFault, name: &str) -> Why {
    match String::from_str(alloc, name) {
        Ok(name) => Why::Name(fault, name),
        Err(_) => Why::OutOfMemory,
    }
}

/// Why the cases can't be run.
#[derive(Drop)]
pub enum Fault {
    /// A case is malformed: its file, the line, and what is wrong.
    Malformed { file: String, line: u64, why: Why },
    Unreadable(String),
    OutOfMemory,
}

impl fmt::Display for Fault {
    fn fmt<W: fmt::Write>(&self, f: &mut fmt::Formatter<W>) -> fmt::Result {
        match self {
            Fault::Malformed { file, line, why } => write!(f, "{file}:{line}: {why}"),
            Fault::Unreadable(name) => write!(f, "{name} can't be read"),
            Fault::OutOfMemory => f.write_str("out of memory"),
        }
    }
}

impl From<AllocError> for Fault {
    fn from(_e: AllocError) -> Fault {
        Fault::OutOfMemory
    }
}

impl<T: Drop> From<AllocFailed<T>> for Fault {
    fn from(_e: AllocFailed<T>) -> Fault {
        Fault::OutOfMemory
    }
}
