ghost use Rattle.std.specs.Prelude.{◌≡◌, true, length, IfOk, IfErr};
ghost use Rattle.std.specs.List.{list_all};
ghost use Rattle.xc_theory.specs.Codes.{total};
ghost use Rattle.xc_base.specs.Formats.{IsAccepted};
ghost use Rattle.xc_base.specs.Lines.{rows_in};
ghost use Rattle.xc_ctl.specs.Trees.{sizes_of, is_fit};
ghost use Rattle.xc_ctl.specs.Tables.{is_table_in};
ghost use Rattle.xc_formula_text.specs.FormulaFiles.{formula_format, IsStop};
ghost use Rattle.xc_ctl.specs.Formulas.{nodes_in};

use crate::rows::read_rows;
use std::alloc::Global;
use xc_base::{FileFault, Lines, List, Part, Stop, Word};
use xc_ctl::{Formulas, Vocabulary};

/// The formulas of a file that is cut into lines, one on each line.
///
/// `props` are the names that propositions may have, `parts` the names of the elements of each part, and `bottom` and
/// `top` the codes of the least and the greatest element of their product. It fails with the file's first fault, or where
/// there is no memory.
#[tactic(auto, using(std::proofs::lemmas::Grind::common_steps, crate::proofs::Reading::file_steps))]
pub fn read_formulas(
    alloc: Global,
    lines: &Lines,
    props: &List<Word>,
    parts: &List<List<Word>>,
    bottom: u16,
    top: u16,
) -> Result<Formulas, Stop>
    requires { is_fit (record { props = props.now; parts = parts.now; bottom = bottom; top = top }) ≡ true }
    ensures ok { IfOk result (λ fs. IsAccepted (formula_format (record { props = props.now; parts = parts.now; bottom = bottom; top = top })) (rows_in lines.now) (nodes_in fs)) }
    ensures range { IfOk result (λ fs. list_all (is_table_in (total (sizes_of parts.now)) (length props.now)) (nodes_in fs) ≡ true) }
    ensures err { IfErr result (IsStop (record { props = props.now; parts = parts.now; bottom = bottom; top = top }) (rows_in lines.now)) }
{
    let vocabulary = Vocabulary {
        props,
        parts,
        bottom,
        top,
    };
    let items = read_rows(alloc, &vocabulary, lines)?;
    if items.len() == 0 {
        return Err(Stop::File(FileFault::Missing {
            part: Part::Formula,
        }));
    }
    Ok(Formulas { items })
}
