ghost use Rattle.std.specs.Prelude.{◌≡◌, ◌==◌, find, ◌<◌, ◌≤◌, ◌^◌, ◌∷◌, ◌++◌, [], ◌+◌, true, false, take, refl, IfOk, IfErr, IsErrOf, OnOk, OnErr, ◌↔◌, vec_len};
ghost use Rattle.std.specs.List.{list_any};
ghost use Rattle.std.specs.Option.{option_copied};
ghost use Rattle.std.specs.Str.{bytes_eq};
ghost use Rattle.xc_base.specs.Shelves.{told_after, IsLoaded, HasRisen, IsAbsentIfSteady, held, fails_at};

use crate::list::{Bytes, List};
use crate::memory::Memory;
use crate::shelf::{File, LoadFault, Shelf};
use std::alloc::Global;
use std::marker::Model;

/// Files in memory, for tests and for what is generated.
///
/// It tells its files, and fails exactly at the calls that it was told to fail at and at names that it does not hold.
#[derive(Debug, Drop)]
pub struct MemoryShelf {
    files: Vec<File>,
    failing: List<u64>,
    failed: List<Bytes>,
    calls: u64,
    alloc: Global,
}

impl Model for MemoryShelf {
    ghost use Rattle.xc_base.specs.Shelves.{Kept};

    ghost Value = { Kept };

    ghost view = { λ s. record { files = s.files.items; failing = s.failing; failed = s.failed; calls = s.calls } };
}

/// The first file of a name.
fn find_file<'a>(files: &'a [File], name: &str) -> Option<&'a File>
    ensures { option_copied result ≡ find (λ file. bytes_eq file.name name.now) files.now }
{
    files
        .iter()
        .find(|file| file.name.as_slice() == name.as_bytes())
}

/// Whether the next call is one of those that are to fail.
pub(crate) fn is_failing(failing: &List<u64>, number: u64) -> bool
    ensures { result ≡ list_any (λ call. call == number) failing.now }
{
    failing.as_slice().iter().any(|call| *call == number)
}

impl MemoryShelf {
    ghost use Rattle.xc_base.specs.Shelves.{empty_shelf};

    /// A shelf with no files.
    pub fn new(alloc: Global) -> MemoryShelf
        ensures { result ≡ empty_shelf }
    {
        MemoryShelf {
            files: Vec::new(alloc),
            failing: List::new(alloc),
            failed: List::new(alloc),
            calls: 0,
            alloc,
        }
    }

    /// Puts a file of that name in place of one that is there. A shelf for which there is no memory stays as it was.
    pub fn add(&mut self, name: &str, bytes: &[u8]) -> Result<(), Memory>
        ensures ok { OnOk result (self.new ≡ record self.old { files = record { name = name.now; bytes = bytes.now } ∷ self.old.files }) }
        ensures err { OnErr result (self.new ≡ self.old) }
    {
        let name = List::of(self.alloc, name.as_bytes())?;
        let bytes = List::of(self.alloc, bytes)?;
        self.files.insert(0, File { name, bytes })?;
        Ok(())
    }

    /// Has the call of that number fail, the first load being call 1. A shelf for which there is no memory stays as it was.
    pub fn fail(&mut self, call: u64) -> Result<(), Memory>
        ensures ok { OnOk result (self.new ≡ record self.old { failing = self.old.failing ++ call ∷ [] }) }
        ensures err { OnErr result (self.new ≡ self.old) }
    {
        self.failing.push(call)
    }
}

/// The first `limit + 1` of the bytes.
fn first_bytes(alloc: Global, bytes: &Bytes, limit: usize) -> Result<Vec<u8>, LoadFault>
    requires { limit < 2 ^ 32 }
    ensures ok { IfOk result (λ v. v.items ≡ take (limit + 1) bytes.now) }
    ensures size { IfOk result (λ v. vec_len v ≤ limit + 1) }
    ensures err { IfErr result (λ e. e ≡ LoadFault.Memory) }
{
    let all = bytes.as_slice();
    let end = all.len().min(limit + 1);
    Vec::from_slice(alloc, &all[..end]).map_err(|_| LoadFault::Memory)
}

impl Shelf for MemoryShelf {
    ghost use Rattle.xc_base.specs.Shelves.{shelved, after_load};

    ghost seen = { shelved };

    ghost counted = { λ s. refl };

    fn load(&mut self, alloc: Global, name: &str, limit: usize) -> Result<Vec<u8>, LoadFault>
        requires { limit < 2 ^ 32 }
        ensures told { (shelved self.new).told ≡ told_after (shelved self.old).told name.now result }
        ensures counts { (shelved self.old).faults ≤ (shelved self.new).faults }
        ensures loaded { IfOk result (λ v. IsLoaded (shelved self.old).told name.now limit v.items) }
        ensures failed { IsErrOf result LoadFault.Failed → HasRisen (shelved self.old).faults (shelved self.new).faults }
        ensures steady { IsErrOf result LoadFault.Failed → IsAbsentIfSteady (shelved self.old).told name.now }
        ensures size { IfOk result (λ v. vec_len v ≤ limit + 1) }
        // The load fails exactly where its number was given or the name is not held, unless there is no memory.
        ensures exact { IsErrOf result LoadFault.Failed → fails_at self.old name.now ≡ true }
        ensures fails { OnOk result (fails_at self.old name.now ≡ false) }
        ensures after { self.new ≡ after_load self.old name.now result }
    {
        self.calls = self.calls.saturating_add(1);
        match find_file(&self.files, name) {
            Some(file) if !is_failing(&self.failing, self.calls) => {
                first_bytes(alloc, &file.bytes, limit)
            }
            _ => {
                let name = List::of(self.alloc, name.as_bytes()).map_err(|_| LoadFault::Memory)?;
                self.failed.push(name).map_err(|_| LoadFault::Memory)?;
                Err(LoadFault::Failed)
            }
        }
    }
}
