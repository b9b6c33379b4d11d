ghost use Rattle.std.specs.Prelude.{◌≡◌, true};
ghost use Rattle.xc_ctl.specs.Trees.{is_fit};

use xc_base::{List, Word};

/// What the words of formulas stand for.
#[derive(Clone, Copy)]
pub struct Vocabulary<'v> {
    /// The names of the propositions.
    pub props: &'v List<Word>,
    /// The names of the elements of each part.
    pub parts: &'v List<List<Word>>,
    /// The codes of the least and the greatest element of their product.
    pub bottom: u16,
    pub top: u16,
    pub ghost fit: { is_fit (record { props = props.now; parts = parts.now; bottom = bottom; top = top }) ≡ true },
}
