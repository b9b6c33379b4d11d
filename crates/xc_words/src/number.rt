ghost use Rattle.std.specs.Prelude.{◌≡◌};
ghost use Rattle.std.specs.List.{list_all};
ghost use Rattle.xc_words.specs.Numbers.{is_digit, is_numeral, number_of};

fn has_only_digits(text: &[u8]) -> bool
    ensures { result ≡ list_all is_digit text.now }
{
    text.iter().all(|b| b.is_ascii_digit())
}

/// Whether a text is one digit, or several of which the first is not `0`.
fn is_numeral(text: &[u8]) -> bool
    ensures { result ≡ is_numeral text.now }
{
    match text {
        [] => false,
        [digit] => digit.is_ascii_digit(),
        [first, ..] => *first != b'0' && has_only_digits(text),
    }
}

/// The number that a text writes in decimal, without sign or leading zero.
#[tactic(auto, using(crate::proofs::Numerals::numeral_read))]
pub(crate) fn number_named(text: &str) -> Option<u32>
    ensures { result ≡ number_of text.now }
{
    if !is_numeral(text.as_bytes()) {
        return None;
    }
    text.parse::<u32>().ok()
}
