ghost use Rattle.std.specs.Prelude.{◌≡◌, ◌<◌, ◌≤◌, ◌^◌, ◌-◌, ◌+◌, IfOk, OnOk, OnErr, IsErrOf, vec_len};
ghost use Rattle.xc_base.specs.Shelves.{unseen, told_after, IsLoaded, HasRisen, IsAbsentIfSteady, raised};
ghost use Rattle.std.specs.Io.KnownBytes.{Consumes, IsAtEnd};

use crate::shelf::{LoadFault, Shelf};
use std::alloc::Global;
use std::fs;
use std::io::Read;
use std::rt::Files;

/// The system's files.
///
/// The files are not told. A name is handed to the system unchanged. Each load that gives no bytes raises the count of
/// faults: where the file can't be opened or read, and where there is no memory for it.
#[derive(Drop)]
pub struct FileShelf<'a, R: Files> {
    rt: &'a R,
    faults: u64,
}

/// The bytes of a reader up to its end, or the first `limit + 1` of them.
fn read_bytes<F: Read>(alloc: Global, file: &mut F, limit: usize) -> Result<Vec<u8>, LoadFault>
    requires { limit < 2 ^ 32 }
    ensures size { IfOk result (λ v. vec_len v ≤ limit + 1) }
    ensures bytes { IfOk result (λ v. Consumes (F.remaining file.old) (F.remaining file.new) v.items) }
    ensures end { IfOk result (λ v. vec_len v ≤ limit → IsAtEnd (F.remaining file.new)) }
{
    let mut bytes = Vec::new(alloc);
    let mut chunk = [0u8; 4096];
    while bytes.len() <= limit {
        let room = (limit + 1 - bytes.len()).min(chunk.len());
        let count = file
            .read(&mut chunk[..room])
            .map_err(|_| LoadFault::Failed)?;
        if count == 0 {
            break;
        }
        bytes
            .extend_from_slice(&chunk[..count])
            .map_err(|_| LoadFault::Memory)?;
    }
    Ok(bytes)
}

/// The bytes of a file of the system, up to its end or the first `limit + 1` of them.
fn read_file<R: Files>(
    alloc: Global,
    rt: &R,
    name: &str,
    limit: usize,
) -> Result<Vec<u8>, LoadFault>
    requires { limit < 2 ^ 32 }
    ensures { IfOk result (λ v. vec_len v ≤ limit + 1) }
{
    let mut file = fs::open(rt, name).map_err(|_| LoadFault::Failed)?;
    read_bytes(alloc, &mut file, limit)
}

impl<'a, R: Files> FileShelf<'a, R> {
    /// The files of that system.
    pub fn new(rt: &'a R) -> FileShelf<'a, R>
        ensures { ⟦<FileShelf<'a, R> as Shelf>⟧.seen result ≡ unseen 0 }
    {
        FileShelf { rt, faults: 0 }
    }
}

impl<'a, R: Files> Shelf for FileShelf<'a, R> {
    ghost seen = { λ s. unseen s.faults };

    ghost counted = { λ s. tt };

    fn load(&mut self, alloc: Global, name: &str, limit: usize) -> Result<Vec<u8>, LoadFault>
        requires { limit < 2 ^ 32 }
        ensures told { (unseen self.new.faults).told ≡ told_after (unseen self.old.faults).told name.now result }
        ensures counts { self.old.faults ≤ self.new.faults }
        ensures loaded { IfOk result (λ v. IsLoaded (unseen self.old.faults).told name.now limit v.items) }
        ensures failed { IsErrOf result LoadFault.Failed → HasRisen self.old.faults self.new.faults }
        ensures steady { IsErrOf result LoadFault.Failed → IsAbsentIfSteady (unseen self.old.faults).told name.now }
        ensures size { IfOk result (λ v. vec_len v ≤ limit + 1) }
        // each load that gives no bytes is counted, whatever the cause, and no other
        ensures each { OnErr result (self.new.faults ≡ raised self.old.faults) }
        ensures only { OnOk result (self.new.faults ≡ self.old.faults) }
    {
        let loaded = read_file(alloc, self.rt, name, limit);
        if loaded.is_err() {
            self.faults = self.faults.saturating_add(1);
        }
        loaded
    }
}
