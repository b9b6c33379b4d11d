ghost use Rattle.std.specs.Prelude.{◌≡◌, ◌<◌, ◌≤◌, ◌∷◌, ◌++◌, [], true, false, length, min, IfOk, IsErrOf, OnOk, OnErr};
ghost use Rattle.xc_base.specs.Shelves.{HasRisen, fails_next};
ghost use Rattle.xc_base.specs.Sinks.{IsCalm, written_after, empty_sink};

use crate::list::{Bytes, List};
use crate::memory::Memory;
use crate::memory_shelf::is_failing;
use crate::sink::{Sink, SinkFault};
use std::alloc::Global;
use std::marker::Model;

/// Bytes in memory, for tests.
///
/// It tells what was written, takes at most so many bytes at a time, and fails exactly at the calls that it was told to
/// fail at.
#[derive(Debug, Drop)]
pub struct MemorySink {
    written: Bytes,
    most: usize,
    failing: List<u64>,
    calls: u64,
    faults: u64,
    wants: u64,
}

impl Model for MemorySink {
    ghost use Rattle.std.specs.Prelude.{◌<◌};
    ghost use Rattle.xc_base.specs.Sinks.{Held};

    ghost Value = { Held };

    ghost view = { λ s. record { bytes = s.written; most = s.most; failing = s.failing; calls = s.calls; faults = s.faults; wants = s.wants } };

    ghost invariant = { λ s. 0 < s.most };
}

impl MemorySink {
    /// A sink with nothing written, which takes at most so many bytes at a time.
    pub fn new(alloc: Global, most: usize) -> MemorySink
        requires { 0 < most }
        ensures { result ≡ empty_sink most }
    {
        MemorySink {
            written: List::new(alloc),
            most,
            failing: List::new(alloc),
            calls: 0,
            faults: 0,
            wants: 0,
        }
    }

    /// Has the call of that number fail, the first put being call 1. A sink for which there is no memory stays as it was.
    pub fn fail(&mut self, call: u64) -> Result<(), Memory>
        ensures ok { OnOk result (self.new ≡ record self.old { failing = self.old.failing ++ call ∷ [] }) }
        ensures err { OnErr result (self.new ≡ self.old) }
    {
        self.failing.push(call)
    }

    /// The bytes that were written.
    pub fn bytes(&self) -> &[u8]
        ensures { result.now ≡ self.now.bytes }
    {
        self.written.as_slice()
    }
}

impl Sink for MemorySink {
    ghost use Rattle.xc_base.specs.Sinks.{sunk, after_put};

    ghost seen = { sunk };

    fn put(&mut self, piece: &[u8]) -> Result<usize, SinkFault>
        ensures within { IfOk result (λ k. k ≤ length piece.now) }
        ensures some { IfOk result (λ k. 0 < length piece.now → 0 < k) }
        ensures written { (sunk self.new).bytes ≡ written_after (sunk self.old).bytes piece.now result }
        ensures fault_counts { (sunk self.old).faults ≤ (sunk self.new).faults }
        ensures want_counts { (sunk self.old).wants ≤ (sunk self.new).wants }
        ensures failed { IsErrOf result SinkFault.Failed → HasRisen (sunk self.old).faults (sunk self.new).faults }
        ensures wanted { IsErrOf result SinkFault.Memory → HasRisen (sunk self.old).wants (sunk self.new).wants }
        ensures calm { OnOk result (IsCalm (sunk self.old) (sunk self.new)) }
        ensures failed_alone { IsErrOf result SinkFault.Failed → (sunk self.new).wants ≡ (sunk self.old).wants }
        ensures wanted_alone { IsErrOf result SinkFault.Memory → (sunk self.new).faults ≡ (sunk self.old).faults }
        // The put fails exactly where its number was given, and else takes as much as it may, unless there is no memory.
        ensures exact { IsErrOf result SinkFault.Failed → fails_next self.old.failing self.old.calls ≡ true }
        ensures fails { OnOk result (fails_next self.old.failing self.old.calls ≡ false) }
        ensures most { IfOk result (λ k. k ≡ min self.old.most (length piece.now)) }
        ensures after { self.new ≡ after_put self.old piece.now result }
    {
        self.calls = self.calls.saturating_add(1);
        if is_failing(&self.failing, self.calls) {
            self.faults = self.faults.saturating_add(1);
            return Err(SinkFault::Failed);
        }
        let taken = self.most.min(piece.len());
        if self.written.extend(&piece[..taken]).is_err() {
            self.wants = self.wants.saturating_add(1);
            return Err(SinkFault::Memory);
        }
        Ok(taken)
    }
}
