//! Putting the text of an item.

ghost use Rattle.std.specs.Prelude.{[], ◌∷◌};
ghost use Rattle.xc_course.specs.Items.{Fixed};
ghost use Rattle.xc_course.specs.Trees.{Serve};
ghost use Rattle.xc_course.specs.Works.{WorksAlways};
ghost use Rattle.xc_lines.specs.Halts.{passed_status};
ghost use Rattle.xc_write.specs.Writing.{IsPut};

use xc_base::{Sink, SinkFault, put_all};
use xc_lines::{Halt, Passed};

/// Puts a text.
pub fn put_text<W: Sink>(out: &mut W, text: &[u8]) -> Result<(), Halt>
    ensures { IsPut text.now (W.seen out.old) (W.seen out.new) result }
{
    match put_all(out, text) {
        Ok(()) => Ok(()),
        Err(SinkFault::Failed) => Err(Halt::WriteFault),
        Err(SinkFault::Memory) => Err(Halt::Memory),
    }
}

/// Serves a request with one text.
pub fn serve_text<W: Sink>(out: &mut W, passed: Passed, text: &[u8]) -> Result<Passed, Halt>
    ensures { WorksAlways (Serve (passed_status passed) (Fixed text.now ∷ [])) (W.seen out.old) (W.seen out.new) result }
{
    put_text(out, text)?;
    Ok(passed)
}
