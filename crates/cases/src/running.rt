ghost use Rattle.std.specs.Prelude.{◌≡◌, ◌<◌};
ghost use Rattle.cases.specs.Verdicts.{ending_of};

use crate::watched::WatchedShelf;
use case_texts::{Case, Ending, NamedText, Ran};
use std::alloc::Global;
use xc_base::{Memory, MemoryShelf, MemorySink};
use xc_top::{Status, run};

/// The one more call that fails in a run, if there is one.
#[derive(Clone, Copy, Debug, Drop)]
pub(crate) enum Turn {
    None,
    Load(u64),
    Put(u64),
    ErrPut(u64),
}

/// How a run with that status ends.
fn ending_of(status: Status) -> Ending
    ensures { result ≡ ending_of status }
{
    match status {
        Status::Done => Ending::Done,
        Status::No => Ending::No,
        Status::Words => Ending::Words,
        Status::Refused => Ending::Refused,
        Status::ReadFault => Ending::ReadFault,
        Status::WriteFault => Ending::WriteFault,
        Status::Memory => Ending::Memory,
    }
}

/// The shelf of a case: all example files, and before them the files of the case.
fn shelf_of(
    alloc: Global,
    examples: &[NamedText],
    case: &Case,
    turn: Turn,
) -> Result<MemoryShelf, Memory> {
    let mut shelf = MemoryShelf::new(alloc);
    for file in examples.iter().chain(&case.files) {
        shelf.add(file.name.as_str(), file.bytes.as_slice())?;
    }
    for call in &case.failing.loads {
        shelf.fail(*call)?;
    }
    if let Turn::Load(call) = turn {
        shelf.fail(call)?;
    }
    Ok(shelf)
}

/// A sink that fails at these calls.
fn sink_of(
    alloc: Global,
    piece: usize,
    failing: &[u64],
    more: Option<u64>,
) -> Result<MemorySink, Memory>
    requires { 0 < piece }
{
    let mut sink = MemorySink::new(alloc, piece);
    for call in failing {
        sink.fail(*call)?;
    }
    if let Some(call) = more {
        sink.fail(call)?;
    }
    Ok(sink)
}

/// Runs the words of a case once.
pub(crate) fn run_once(
    alloc: Global,
    examples: &[NamedText],
    case: &Case,
    turn: Turn,
) -> Result<Ran, Memory> {
    let (put, err_put) = match turn {
        Turn::Put(call) => (Some(call), None),
        Turn::ErrPut(call) => (None, Some(call)),
        _ => (None, None),
    };
    let mut out = sink_of(alloc, case.piece, case.failing.puts.as_slice(), put)?;
    let mut err = sink_of(alloc, case.piece, case.failing.err_puts.as_slice(), err_put)?;
    let mut shelf = WatchedShelf {
        shelf: shelf_of(alloc, examples, case, turn)?,
        loads: Vec::new(alloc),
        failed: Vec::new(alloc),
    };
    let status = run(alloc, &case.words, &mut shelf, &mut out, &mut err);
    Ok(Ran {
        ending: ending_of(status),
        out: Vec::from_slice(alloc, out.bytes())?,
        err: Vec::from_slice(alloc, err.bytes())?,
        loads: shelf.loads,
        failed: shelf.failed,
    })
}
