//! The names that propositions may have.

ghost use Rattle.std.specs.Prelude.{◌≡◌};
ghost use Rattle.xc_base.specs.Names.{is_among};
ghost use Rattle.xc_sigmap_lines.specs.MapFiles.{formula_words, is_prop_name};

use xc_base::is_name_text;

fn is_formula_word(text: &[u8]) -> bool
    ensures { result ≡ is_among formula_words text.now }
{
    text == b"true".as_slice()
        || text == b"false".as_slice()
        || text == b"EX".as_slice()
        || text == b"AX".as_slice()
        || text == b"EF".as_slice()
        || text == b"AF".as_slice()
        || text == b"EG".as_slice()
        || text == b"AG".as_slice()
        || text == b"E".as_slice()
        || text == b"A".as_slice()
        || text == b"U".as_slice()
}

/// Whether a proposition may have the text as its name.
pub(crate) fn is_prop_name(text: &[u8]) -> bool
    ensures { result ≡ is_prop_name text.now }
{
    is_name_text(text) && !is_formula_word(text)
}
