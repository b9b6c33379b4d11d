ghost use Rattle.std.specs.Prelude.{◌<◌};

/// A file: its name and its bytes.
#[derive(Drop)]
pub struct NamedText {
    pub name: String,
    pub bytes: Vec<u8>,
}

/// How a run ends.
#[derive(Clone, Copy, PartialEq, Eq)]
pub enum Ending {
    Done,
    No,
    Words,
    Refused,
    ReadFault,
    WriteFault,
    Memory,
}

/// What fails in turn, in further runs of a case.
#[derive(Clone, Copy, Drop, PartialEq, Eq)]
pub enum Each {
    /// Each load.
    Load,
    /// Each put on out.
    Put,
    /// Each put on err.
    ErrPut,
}

/// What is expected of the bytes on out or err.
#[derive(Drop)]
pub enum Expectation {
    /// They are this text.
    Whole(Vec<u8>),
    /// They are a prefix of this text that lacks something.
    PartOf(Vec<u8>),
    /// They begin with this text.
    BeginsWith(Vec<u8>),
}

/// What is expected of a run.
#[derive(Drop)]
pub struct Expected {
    pub ending: Ending,
    pub out: Expectation,
    pub err: Expectation,
    /// The names whose loads failed, in order.
    pub failed: Vec<String>,
    /// The names of all loads in order, where the case says them.
    pub loads: Option<Vec<String>>,
}

/// What a run leaves.
#[derive(Drop)]
pub struct Ran {
    pub ending: Ending,
    pub out: Vec<u8>,
    pub err: Vec<u8>,
    /// The names of all loads in order, and of those that failed.
    pub loads: Vec<String>,
    pub failed: Vec<String>,
}

/// The numbers of the calls that fail, the first one being call 1.
#[derive(Drop)]
pub struct Failing {
    pub loads: Vec<u64>,
    pub puts: Vec<u64>,
    pub err_puts: Vec<u64>,
}

/// A case that is ready to be run.
#[derive(Drop)]
pub struct Case {
    pub name: String,
    pub words: Vec<String>,
    pub files: Vec<NamedText>,
    pub failing: Failing,
    pub each: Vec<Each>,
    pub piece: usize,
    pub expected: Expected,
    ghost takes_some: { 0 < piece },
}
