ghost use Rattle.std.specs.Prelude.{◌≡◌, ◌<◌, ◌≤◌, ◌^◌, ◌+◌, IfOk, IsErrOf, vec_len};
ghost use Rattle.xc_base.specs.Shelves.{Shelved, told_after, IsLoaded, HasRisen, IsAbsentIfSteady, AreCounted};

use crate::list::Bytes;
use std::alloc::Global;
use thiserror::Error;

/// A file: its name and its bytes.
#[derive(Debug, Drop)]
pub struct File {
    pub name: Bytes,
    pub bytes: Bytes,
}

/// Why a shelf gives no bytes.
#[derive(Clone, Copy, Debug, PartialEq, Eq, Error)]
pub enum LoadFault {
    /// The file is not there, or reading it failed.
    #[error("load failed")]
    Failed,
    #[error("no memory")]
    Memory,
}

/// Where files come from.
///
/// A shelf may tell its files, as one in memory does; then it also tells the names whose loads failed. It counts its
/// faults: at each load that fails the count rises, or stands at the last value of a `u64`.
pub trait Shelf {
    ghost seen: { Self → Shelved };

    /// The bytes of a file, or the first `limit + 1` of them.
    ///
    /// `Failed` comes only where the count of faults rose. A load changes no file, and where files are told it adds the
    /// name to the failed ones exactly where it answers `Failed`. A steady shelf fails only at names that it does not hold.
    fn load(&mut self, alloc: Global, name: &str, limit: usize) -> Result<Vec<u8>, LoadFault>
        requires { limit < 2 ^ 32 }
        ensures told { (seen self.new).told ≡ told_after (seen self.old).told name.now result }
        ensures counts { (seen self.old).faults ≤ (seen self.new).faults }
        ensures loaded { IfOk result (λ v. IsLoaded (seen self.old).told name.now limit v.items) }
        ensures failed { IsErrOf result LoadFault.Failed → HasRisen (seen self.old).faults (seen self.new).faults }
        ensures steady { IsErrOf result LoadFault.Failed → IsAbsentIfSteady (seen self.old).told name.now }
        ensures size { IfOk result (λ v. vec_len v ≤ limit + 1) };

    ghost counted: { (s : Self) → AreCounted (seen s) };
}
