ghost use Rattle.std.specs.Prelude.{◌≡◌, ◌<◌, ◌↔◌, IsTrue};

use std::fmt;

/// How many cases passed and failed.
#[derive(Clone, Copy, Debug)]
pub struct Tally {
    pub passed: u64,
    pub failed: u64,
}

impl Tally {
    ghost use Rattle.case_texts.specs.Tallies.{counted};

    /// No case.
    pub fn new() -> Tally
        ensures passed { result.passed ≡ 0 }
        ensures failed { result.failed ≡ 0 }
    {
        Tally {
            passed: 0,
            failed: 0,
        }
    }

    /// One more case, which passed or failed.
    pub fn count(&mut self, has_passed: bool)
        ensures { self.new ≡ counted self.old has_passed }
    {
        if has_passed {
            self.passed = self.passed.saturating_add(1);
        } else {
            self.failed = self.failed.saturating_add(1);
        }
    }

    /// Whether some case passed and none failed.
    pub fn is_good(&self) -> bool
        ensures { IsTrue result ↔ ((0 < self.now.passed) × (self.now.failed ≡ 0)) }
    {
        self.passed > 0 && self.failed == 0
    }
}

impl fmt::Display for Tally {
    fn fmt<W: fmt::Write>(&self, f: &mut fmt::Formatter<W>) -> fmt::Result {
        let (passed, failed) = (self.passed, self.failed);
        write!(f, "{passed} cases passed, {failed} failed")
    }
}
