ghost use Rattle.std.specs.Prelude.{◌≡◌, ◌<◌, ◌≤◌, length, IfOk, IsErrOf, OnOk, OnErr};
ghost use Rattle.xc_base.specs.Shelves.{HasRisen};
ghost use Rattle.xc_base.specs.Sinks.{Sunk, IsCalm, written_after, AddsWhole, AddsPart};

use thiserror::Error;

/// Why a sink takes no bytes.
#[derive(Clone, Copy, Debug, PartialEq, Eq, Error)]
pub enum SinkFault {
    /// Writing failed.
    #[error("put failed")]
    Failed,
    #[error("no memory")]
    Memory,
}

/// Where text goes.
///
/// A sink may tell the bytes that were written, as one in memory does. It counts its faults, and the times that it found
/// no memory; neither count falls.
pub trait Sink {
    ghost seen: { Self → Sunk };

    /// Takes a front of the piece, at least one byte of a piece that has one, and answers how many bytes that is.
    ///
    /// A put that takes bytes leaves both counts as they were. An error takes nothing. `Failed` comes only where the count
    /// of faults rose, `Memory` only where that of wants of memory did, and the other count stays as it was.
    fn put(&mut self, piece: &[u8]) -> Result<usize, SinkFault>
        ensures within { IfOk result (λ k. k ≤ length piece.now) }
        ensures some { IfOk result (λ k. 0 < length piece.now → 0 < k) }
        ensures written { (seen self.new).bytes ≡ written_after (seen self.old).bytes piece.now result }
        ensures fault_counts { (seen self.old).faults ≤ (seen self.new).faults }
        ensures want_counts { (seen self.old).wants ≤ (seen self.new).wants }
        ensures failed { IsErrOf result SinkFault.Failed → HasRisen (seen self.old).faults (seen self.new).faults }
        ensures wanted { IsErrOf result SinkFault.Memory → HasRisen (seen self.old).wants (seen self.new).wants }
        ensures calm { OnOk result (IsCalm (seen self.old) (seen self.new)) }
        ensures failed_alone { IsErrOf result SinkFault.Failed → (seen self.new).wants ≡ (seen self.old).wants }
        ensures wanted_alone { IsErrOf result SinkFault.Memory → (seen self.new).faults ≡ (seen self.old).faults };
}

/// Puts all bytes, piece by piece.
///
/// Where all were put, no put failed. After an error a front of the bytes that lacks something has been taken. The error
/// is that of the put that failed, with its cause.
pub fn put_all<W: Sink>(sink: &mut W, bytes: &[u8]) -> Result<(), SinkFault>
    ensures whole { OnOk result (AddsWhole bytes.now (W.seen sink.old).bytes (W.seen sink.new).bytes) }
    ensures part { OnErr result (AddsPart bytes.now (W.seen sink.old).bytes (W.seen sink.new).bytes) }
    ensures fault_counts { (W.seen sink.old).faults ≤ (W.seen sink.new).faults }
    ensures want_counts { (W.seen sink.old).wants ≤ (W.seen sink.new).wants }
    ensures failed { IsErrOf result SinkFault.Failed → HasRisen (W.seen sink.old).faults (W.seen sink.new).faults }
    ensures wanted { IsErrOf result SinkFault.Memory → HasRisen (W.seen sink.old).wants (W.seen sink.new).wants }
    ensures calm { OnOk result (IsCalm (W.seen sink.old) (W.seen sink.new)) }
    ensures failed_alone { IsErrOf result SinkFault.Failed → (W.seen sink.new).wants ≡ (W.seen sink.old).wants }
    ensures wanted_alone { IsErrOf result SinkFault.Memory → (W.seen sink.new).faults ≡ (W.seen sink.old).faults }
{
    let mut taken = 0;
    while taken < bytes.len() {
        taken += sink.put(&bytes[taken..])?;
    }
    Ok(())
}
