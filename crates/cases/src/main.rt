//! Runs the program on cases that are data, and compares what it answers with what is expected of it.
#![tactic(auto)]

mod folder;
mod judging;
mod running;
mod suite;
mod telling;
mod turns;
mod watched;

use case_texts::Fault;
use folder::files_in;
use std::io;
use std::process::ExitCode;
use std::rt::Files;
use suite::Suite;

/// The folder of the example files.
const EXAMPLES: &str = "examples";

/// The folder of the case files.
const CASES: &str = "cases";

/// Runs all cases of all files.
fn run_all<R: Files + AllocGlobal + Clone + Drop>(rt: &R, suite: &mut Suite) -> Result<(), Fault> {
    suite.set_examples(files_in(rt, EXAMPLES)?);
    for file in files_in(rt, CASES)? {
        match std::str::from_utf8(file.bytes.as_slice()) {
            Ok(text) => suite.run_file(rt.alloc(), file.name.as_str(), text)?,
            Err(_) => return Err(Fault::Unreadable(file.name)),
        }
    }
    Ok(())
}

fn main(rt: HostRuntime) -> io::Result<ExitCode> {
    let mut suite = Suite::new(rt.alloc());
    let ended = run_all(&rt, &mut suite);
    let (tally, report) = (suite.tally(), suite.report());
    print!(rt; "{report}")?;
    match ended {
        Ok(()) => println!(rt; "{tally}")?,
        Err(fault) => {
            println!(rt; "{fault}")?;
            return Ok(ExitCode::FAILURE);
        }
    }
    if tally.is_good() {
        Ok(ExitCode::SUCCESS)
    } else {
        Ok(ExitCode::FAILURE)
    }
}
