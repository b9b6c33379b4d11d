use xc_base::{FileFault, List, Memory, Stop, Word};
use xc_laws::Law;

/// Why a file gives no lattice.
#[derive(Debug, Drop)]
pub enum LatFault {
    /// The file's first fault.
    File(FileFault),
    /// The first law that the file's data break, and the names of the first elements that break it.
    Broken { law: Law, elements: List<Word> },
    Memory,
}

impl From<Memory> for LatFault {
    ghost use Rattle.std.specs.Prelude.{◌≡◌};
    ghost use Rattle.xc_lattice.specs.declared.fault.LatFault.TheVariants.{Memory as NoMemory};

    ghost from_gives = { λ _ e. e ≡ NoMemory };

    fn from(_e: Memory) -> LatFault {
        LatFault::Memory
    }
}

impl From<Stop> for LatFault {
    ghost use Rattle.std.specs.Prelude.{◌≡◌};
    ghost use Rattle.xc_lattice.specs.Stops.{fault_of};

    ghost from_gives = { λ stop e. e ≡ fault_of stop };

    fn from(stop: Stop) -> LatFault {
        match stop {
            Stop::File(fault) => LatFault::File(fault),
            Stop::Memory => LatFault::Memory,
        }
    }
}
