ghost use Rattle.std.specs.Prelude.{◌≡◌, ◌<◌, ◌≤◌, ◌^◌, ◌+◌, refl};

use std::alloc::Global;
use xc_base::{LoadFault, MemoryShelf, Shelf};

/// A shelf in memory that keeps the names of the loads, and of those that failed.
#[derive(Drop)]
pub(crate) struct WatchedShelf {
    pub shelf: MemoryShelf,
    pub loads: Vec<String>,
    pub failed: Vec<String>,
}

impl Shelf for WatchedShelf {
    ghost use Rattle.xc_base.specs.Shelves.{shelved};

    ghost seen = { λ s. shelved s.shelf };

    ghost counted = { λ s. refl };

    fn load(&mut self, alloc: Global, name: &str, limit: usize) -> Result<Vec<u8>, LoadFault> {
        let copy = String::from_str(alloc, name).map_err(|_| LoadFault::Memory)?;
        self.loads.push(copy).map_err(|_| LoadFault::Memory)?;
        let copy = String::from_str(alloc, name).map_err(|_| LoadFault::Memory)?;
        self.failed.push(copy).map_err(|_| LoadFault::Memory)?;
        let loaded = self.shelf.load(alloc, name, limit);
        if !matches!(loaded, Err(LoadFault::Failed)) {
            let _ = self.failed.pop();
        }
        loaded
    }
}
