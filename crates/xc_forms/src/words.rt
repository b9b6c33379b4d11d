//! The names that guards and actions may have.

ghost use Rattle.std.specs.Prelude.{◌≡◌};
ghost use Rattle.xc_base.specs.Names.{is_among};
ghost use Rattle.xc_forms.specs.VariableNames.{value_words, is_value_name, is_variable_name};

use xc_base::is_name_text;

fn is_reserved(text: &[u8]) -> bool
    ensures { result ≡ is_among value_words text.now }
{
    text == b"any".as_slice()
        || text == b"next".as_slice()
        || text == b"prev".as_slice()
        || text == b"skip".as_slice()
        || text == b"when".as_slice()
        || text == b"do".as_slice()
}

/// Whether a value may have the text as its name.
pub fn is_value_name(text: &[u8]) -> bool
    ensures { result ≡ is_value_name text.now }
{
    is_name_text(text) && !is_reserved(text)
}

/// Whether a variable may have the text as its name.
pub fn is_variable_name(text: &[u8]) -> bool
    ensures { result ≡ is_variable_name text.now }
{
    is_value_name(text) && text != b"true".as_slice() && text != b"false".as_slice()
}
