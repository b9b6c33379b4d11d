//! Judging the lattice in a file.

ghost use Rattle.std.specs.Prelude.{ℕ, [], ◌∷◌, List};
ghost use Rattle.xc_lattice.specs.Values.{value_of as lattice_of};
ghost use Rattle.xc_course.specs.Items.{Fixed, Described};
ghost use Rattle.xc_course.specs.Trees.{Serve};
ghost use Rattle.xc_course.specs.Works.{Works, WorksAlways};
ghost use Rattle.xc_lines.specs.Texts.{broken_text as text_of_break};
ghost use Rattle.xc_lines.specs.declared.status.Status.TheVariants.{Done, No};
ghost use Rattle.xc_show.specs.Showing.{LatticeTree, Verdicts};
ghost use Rattle.xc_stages.specs.Loaded.{verdict_of};

use std::alloc::Global;
use xc_base::{List as Items, Shelf, Sink, Word};
use xc_lattice::Lattice;
use xc_laws::Law;
use xc_lines::{Halt, Passed, broken_text, lattice_line};
use xc_stages::{Judged, judge_lattice};
use xc_write::{put_text, serve_text};

/// Describes a lattice.
fn describe<W: Sink>(alloc: Global, out: &mut W, lattice: &Lattice) -> Result<Passed, Halt>
    ensures { WorksAlways (Serve Done (Described (lattice_of lattice.now) ∷ [])) (W.seen out.old) (W.seen out.new) result }
{
    let line = lattice_line(alloc, lattice, lattice.height())?;
    put_text(out, line.as_bytes())?;
    Ok(Passed::Done)
}

/// Answers no, with a law that is broken and the elements that break it.
fn tell_break<W: Sink>(
    alloc: Global,
    out: &mut W,
    law: Law,
    elements: &Items<Word>,
) -> Result<Passed, Halt>
    ensures { WorksAlways (Serve No (Fixed (text_of_break law elements.now) ∷ [])) (W.seen out.old) (W.seen out.new) result }
{
    let text = broken_text(alloc, law, elements)?;
    serve_text(out, Passed::No, text.as_bytes())
}

/// Answers with the verdict on a lattice file.
fn answer<W: Sink>(alloc: Global, out: &mut W, judged: &Judged) -> Result<Passed, Halt>
    ensures { (name : List ℕ) → WorksAlways (Verdicts name (verdict_of judged.now)) (W.seen out.old) (W.seen out.new) result }
{
    match judged {
        Judged::Lawful(lattice) => describe(alloc, out, lattice),
        Judged::Broken { law, elements } => tell_break(alloc, out, *law, elements),
    }
}

/// Judges the lattice in a file: describes it, or answers no with the first law that it breaks.
pub fn lattice<S: Shelf, W: Sink>(
    alloc: Global,
    shelf: &mut S,
    out: &mut W,
    name: &str,
) -> Result<Passed, Halt>
    ensures { Works (LatticeTree name.now) (S.seen shelf.old) (S.seen shelf.new) (W.seen out.old) (W.seen out.new) result }
{
    let judged = judge_lattice(alloc, shelf, name)?;
    answer(alloc, out, &judged)
}
