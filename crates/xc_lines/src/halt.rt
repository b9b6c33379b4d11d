ghost use Rattle.std.specs.Prelude.{◌≡◌};

use crate::status::Status;
use std::alloc::AllocError;
use xc_base::Memory as NoMemory;
use xc_words::WordsFault;

/// Why a request is not served, with its line for err where that is not always the same.
#[derive(Debug, Drop)]
pub enum Halt {
    Words,
    Refused(String),
    ReadFault(String),
    WriteFault,
    Memory,
}

impl Halt {
    ghost use Rattle.xc_lines.specs.Halts.{halt_status, halt_line};

    /// The status that it ends with.
    pub fn status(&self) -> Status
        ensures { result ≡ halt_status self.now }
    {
        match self {
            Halt::Words => Status::Words,
            Halt::Refused(_) => Status::Refused,
            Halt::ReadFault(_) => Status::ReadFault,
            Halt::WriteFault => Status::WriteFault,
            Halt::Memory => Status::Memory,
        }
    }

    /// Its line for err.
    pub fn line(&self) -> &str
        ensures { result.now ≡ halt_line self.now }
    {
        match self {
            Halt::Words => "refused words\n",
            Halt::Refused(line) => line.as_str(),
            Halt::ReadFault(line) => line.as_str(),
            Halt::WriteFault => "fault write\n",
            Halt::Memory => "fault memory\n",
        }
    }
}

impl From<AllocError> for Halt {
    ghost use Rattle.xc_lines.specs.declared.halt.Halt.TheVariants.{Memory};

    ghost from_gives = { λ _ e. e ≡ Memory };

    fn from(_e: AllocError) -> Halt {
        Halt::Memory
    }
}

impl From<NoMemory> for Halt {
    ghost use Rattle.xc_lines.specs.declared.halt.Halt.TheVariants.{Memory};

    ghost from_gives = { λ _ e. e ≡ Memory };

    fn from(_e: NoMemory) -> Halt {
        Halt::Memory
    }
}

impl From<WordsFault> for Halt {
    ghost use Rattle.xc_lines.specs.Halts.{words_halt};

    ghost from_gives = { λ fault e. e ≡ words_halt fault };

    fn from(fault: WordsFault) -> Halt {
        match fault {
            WordsFault::Words => Halt::Words,
            WordsFault::Memory => Halt::Memory,
        }
    }
}
