ghost use Rattle.std.specs.Prelude.{◌≡◌, OnOk};

use crate::judging::{Verdict, judge};
use case_files::parts_of;
use case_texts::{Case, Fault, NamedText, Sources, Tally};
use std::alloc::{AllocError, Global};
use xc_base::Memory;

/// The example files, and what came of the cases so far.
#[derive(Drop)]
pub(crate) struct Suite {
    examples: Vec<NamedText>,
    outs: Vec<NamedText>,
    tally: Tally,
    report: String,
}

impl Suite {
    ghost use Rattle.case_texts.specs.Tallies.{counted};
    ghost use Rattle.cases.specs.Verdicts.{has_passed};

    /// A suite without example files, of which no case was run.
    pub(crate) fn new(alloc: Global) -> Suite {
        Suite {
            examples: Vec::new(alloc),
            outs: Vec::new(alloc),
            tally: Tally::new(),
            report: String::new(alloc),
        }
    }

    /// Puts these example files on the shelf of each case.
    pub(crate) fn set_examples(&mut self, examples: Vec<NamedText>) {
        self.examples = examples;
    }

    /// How many cases passed and failed.
    pub(crate) fn tally(&self) -> Tally {
        self.tally
    }

    /// How cases differ from what is expected of them.
    pub(crate) fn report(&self) -> &str {
        self.report.as_str()
    }

    /// Counts a case, keeps its out, and reports how it differs.
    fn settle(
        &mut self,
        alloc: Global,
        file: &str,
        name: String,
        verdict: Verdict,
    ) -> Result<(), AllocError>
        ensures { OnOk result (self.new.tally ≡ counted self.old.tally (has_passed verdict)) }
    {
        let bytes = match verdict {
            Verdict::Passed(ran) => {
                self.tally.count(true);
                ran.out
            }
            Verdict::Differs(told) => {
                self.tally.count(false);
                let line = format!(in alloc; "{file}: {name}\n{told}")?;
                self.report.push_str(line.as_str())?;
                Vec::new(alloc)
            }
        };
        self.outs.push(NamedText { name, bytes })?;
        Ok(())
    }

    /// Runs a case and settles it.
    fn run_case(&mut self, alloc: Global, file: &str, case: Case) -> Result<(), Memory> {
        let verdict = judge(alloc, self.examples.as_slice(), &case)?;
        self.settle(alloc, file, case.name, verdict)?;
        Ok(())
    }

    /// Runs the cases of a file, one after the other.
    pub(crate) fn run_file(&mut self, alloc: Global, file: &str, text: &str) -> Result<(), Fault> {
        for part in parts_of(alloc, text)? {
            let sources = Sources {
                examples: self.examples.as_slice(),
                outs: self.outs.as_slice(),
            };
            let Some(case) = part.read(alloc, file, &sources)? else {
                continue;
            };
            if self.run_case(alloc, file, case).is_err() {
                return Err(Fault::OutOfMemory);
            }
        }
        Ok(())
    }
}
