//! Names among names.

ghost use Rattle.std.specs.Prelude.{◌≡◌};
ghost use Rattle.std.specs.List.{position};
ghost use Rattle.std.specs.Str.{bytes_eq};
ghost use Rattle.xc_base.specs.Names.{is_among, has_twice};

use crate::word::Word;

fn is_same(word: &Word, text: &[u8]) -> bool
    ensures { result ≡ bytes_eq text.now word.now }
{
    text == word.as_str().as_bytes()
}

/// Whether a text is one of these names.
pub fn is_among(names: &[Word], text: &[u8]) -> bool
    ensures { result ≡ is_among names.now text.now }
{
    names.iter().any(|x| is_same(x, text))
}

/// Whether a name stands twice among these.
#[tactic(auto, using(crate::proofs::Naming::twice_from))]
pub fn has_twice(names: &[Word]) -> bool
    ensures { result ≡ has_twice names.now }
{
    for (place, name) in names.iter().enumerate() {
        if is_among(&names[place + 1..], name.as_str().as_bytes()) {
            return true;
        }
    }
    false
}

/// The place of the first of these names that is the text, where one is.
pub fn find_name(names: &[Word], text: &[u8]) -> Option<usize>
    ensures { result ≡ position (bytes_eq text.now) names.now }
{
    names.iter().position(|x| is_same(x, text))
}
