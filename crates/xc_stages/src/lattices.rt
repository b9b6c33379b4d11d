//! Lattice files.

ghost use Rattle.std.specs.Prelude.{IfOk, IfErr};
ghost use Rattle.xc_base.specs.Lines.{rows_in};
ghost use Rattle.xc_lattice.specs.LatticeFiles.{lattice_format};
ghost use Rattle.xc_lattice.specs.Values.{value_of as lattice_of};
ghost use Rattle.xc_course.specs.FileKinds.{Lattices};
ghost use Rattle.xc_course.specs.Trees.{Open, OpenLattice};
ghost use Rattle.xc_course.specs.Works.{GoesOn, Stops};
ghost use Rattle.xc_stages.specs.Loaded.{IsFaultRefusal, IsRead, IsRefusalHalt, IsUnread, IsVerdictOf, verdict_of};

use crate::load::{FILE_LIMIT, cut, load};
use std::alloc::Global;
use xc_base::{Lines, List, Shelf, Word};
use xc_lattice::{LatFault, Lattice};
use xc_laws::Law;
use xc_lines::{Halt, refused_broken, refused_file};

/// The verdict on a lattice file that has no fault.
#[derive(Drop)]
pub enum Judged {
    /// It breaks a law, first by these elements.
    Broken { law: Law, elements: List<Word> },
    /// It breaks none.
    Lawful(Lattice),
}

/// The verdict on the lattice of a file that is cut into lines.
fn read_lattice(alloc: Global, name: &str, lines: &Lines) -> Result<Judged, Halt>
    ensures read { IfOk result (IsVerdictOf (rows_in lines.now)) }
    ensures stopped { IfErr result (IsRefusalHalt (IsFaultRefusal lattice_format name.now (rows_in lines.now))) }
{
    match xc_lattice::read(alloc, lines) {
        Ok(lattice) => Ok(Judged::Lawful(lattice)),
        Err(LatFault::Broken { law, elements }) => Ok(Judged::Broken { law, elements }),
        Err(LatFault::File(fault)) => Err(Halt::Refused(refused_file(alloc, name, &fault)?)),
        Err(LatFault::Memory) => Err(Halt::Memory),
    }
}

/// The verdict on the lattice in a file of these bytes.
#[tactic(auto, using(crate::proofs::Reading::read_found, crate::proofs::Reading::not_found, crate::proofs::Reading::not_cut))]
fn lattice_in(alloc: Global, name: &str, bytes: &[u8]) -> Result<Judged, Halt>
    ensures read { IfOk result (IsRead IsVerdictOf FILE_LIMIT bytes.now) }
    ensures stopped { IfErr result (IsUnread (IsFaultRefusal lattice_format name.now) FILE_LIMIT name.now bytes.now) }
{
    let lines = cut(alloc, name, bytes, FILE_LIMIT)?;
    read_lattice(alloc, name, &lines)
}

/// Opens a lattice file, and judges it by the six laws.
pub fn judge_lattice<S: Shelf>(alloc: Global, shelf: &mut S, name: &str) -> Result<Judged, Halt>
    ensures goes_on { IfOk result (λ j. GoesOn (Open Lattices name.now) (S.seen shelf.old) (S.seen shelf.new) (verdict_of j)) }
    ensures stops { IfErr result (Stops (Open Lattices name.now) (S.seen shelf.old) (S.seen shelf.new)) }
{
    let bytes = load(alloc, shelf, name, FILE_LIMIT)?;
    lattice_in(alloc, name, &bytes)
}

/// Opens a lattice that breaks no law.
pub fn open_lattice<S: Shelf>(alloc: Global, shelf: &mut S, name: &str) -> Result<Lattice, Halt>
    ensures goes_on { IfOk result (λ l. GoesOn (OpenLattice name.now) (S.seen shelf.old) (S.seen shelf.new) (lattice_of l)) }
    ensures stops { IfErr result (Stops (OpenLattice name.now) (S.seen shelf.old) (S.seen shelf.new)) }
{
    match judge_lattice(alloc, shelf, name)? {
        Judged::Lawful(lattice) => Ok(lattice),
        Judged::Broken { law, elements } => {
            Err(Halt::Refused(refused_broken(alloc, name, law, &elements)?))
        }
    }
}
