ghost use Rattle.std.specs.Prelude.{◌≡◌, ◌<◌, ◌≤◌, length, take, IfSome, IfOk, OnOk, OnErr, IsErrOf};
ghost use Rattle.std.specs.Io.KnownBytes.{Appends};
ghost use Rattle.xc_base.specs.Shelves.{HasRisen, raised};
ghost use Rattle.xc_base.specs.Sinks.{AppendsFront, IsCalm, written_after, unseen};

use crate::sink::{Sink, SinkFault};
use std::io;

/// A real writer.
///
/// What was written is not told. Each write is followed by a flush; a fault is where one of the two fails, or where the
/// writer takes nothing of a piece with bytes in it. Memory is never wanted.
#[derive(Drop)]
pub struct StreamSink<X: io::Write + Drop> {
    writer: X,
    faults: u64,
}

/// Writes a front of the piece and flushes it. Where one of the two fails, a front of the piece may have been written.
#[tactic(auto, using(crate::proofs::Fronts::wrote_front, crate::proofs::Fronts::kept_front))]
fn write_some<X: io::Write>(writer: &mut X, piece: &[u8]) -> Option<usize>
    ensures within { IfSome result (λ k. k ≤ length piece.now) }
    ensures some { IfSome result (λ k. 0 < length piece.now → 0 < k) }
    ensures bytes { IfSome result (λ k. Appends (X.contents writer.old) (X.contents writer.new) (take k piece.now)) }
    ensures front { AppendsFront piece.now (X.contents writer.old) (X.contents writer.new) }
{
    let count = writer.write(piece).ok()?;
    writer.flush().ok()?;
    if count == 0 && !piece.is_empty() {
        return None;
    }
    Some(count)
}

impl<X: io::Write + Drop> StreamSink<X> {
    /// A sink over that writer, to which nothing is written yet.
    pub fn new(writer: X) -> StreamSink<X>
        ensures seen { ⟦<StreamSink<X> as Sink>⟧.seen result ≡ unseen 0 }
        ensures kept { result.writer ≡ writer }
    {
        StreamSink { writer, faults: 0 }
    }
}

impl<X: io::Write + Drop> Sink for StreamSink<X> {
    ghost seen = { λ s. unseen s.faults };

    fn put(&mut self, piece: &[u8]) -> Result<usize, SinkFault>
        ensures within { IfOk result (λ k. k ≤ length piece.now) }
        ensures some { IfOk result (λ k. 0 < length piece.now → 0 < k) }
        ensures written { (unseen self.new.faults).bytes ≡ written_after (unseen self.old.faults).bytes piece.now result }
        ensures fault_counts { self.old.faults ≤ self.new.faults }
        ensures want_counts { (unseen self.old.faults).wants ≤ (unseen self.new.faults).wants }
        ensures failed { IsErrOf result SinkFault.Failed → HasRisen self.old.faults self.new.faults }
        ensures wanted { IsErrOf result SinkFault.Memory → HasRisen (unseen self.old.faults).wants (unseen self.new.faults).wants }
        ensures calm { OnOk result (IsCalm (unseen self.old.faults) (unseen self.new.faults)) }
        ensures failed_alone { IsErrOf result SinkFault.Failed → (unseen self.new.faults).wants ≡ (unseen self.old.faults).wants }
        ensures wanted_alone { IsErrOf result SinkFault.Memory → self.new.faults ≡ self.old.faults }
        // each put that takes nothing is counted, and no other
        ensures each { OnErr result (self.new.faults ≡ raised self.old.faults) }
        ensures only { OnOk result (self.new.faults ≡ self.old.faults) }
        // what it answers that it took was appended to the writer, where its bytes are known
        ensures passed_on { IfOk result (λ k. Appends (X.contents self.old.writer) (X.contents self.new.writer) (take k piece.now)) }
        // after a put that failed, a front of the piece at most
        ensures stopped { OnErr result (AppendsFront piece.now (X.contents self.old.writer) (X.contents self.new.writer)) }
    {
        match write_some(&mut self.writer, piece) {
            Some(count) => Ok(count),
            None => {
                self.faults = self.faults.saturating_add(1);
                Err(SinkFault::Failed)
            }
        }
    }
}
