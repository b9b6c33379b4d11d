ghost use Rattle.std.specs.Prelude.{◌≡◌, option_map};
ghost use Rattle.xc_base.specs.Lines.{texts};
ghost use Rattle.xc_base.specs.Operators.{behind};

use crate::lines::Lexeme;

/// The tokens behind a token of that text, where they begin with one.
pub fn behind<'t, 'a>(tokens: &'t [Lexeme<'a>], mark: &[u8]) -> Option<&'t [Lexeme<'a>]>
    ensures { option_map (λ rest. texts rest.now) result ≡ behind mark.now (texts tokens.now) }
{
    match tokens {
        [first, rest @ ..] if first.text == mark => Some(rest),
        _ => None,
    }
}
