//! The places of names.

ghost use Rattle.std.specs.Prelude.{◌≡◌, ◌<◌, IfSome, length};
ghost use Rattle.std.specs.List.{position, list_any};
ghost use Rattle.std.specs.Str.{bytes_eq};
ghost use Rattle.xc_sigmap_lines.specs.MapFiles.{use_names};

use xc_base::Word;
use xc_sigmap_lines::Use;

fn is_use_of(declared: &Use, name: &Word) -> bool
    ensures { result ≡ bytes_eq name.now declared.now.name }
{
    name.as_str() == declared.name.as_str()
}

fn use_place(uses: &[Use], name: &Word) -> Option<usize>
    ensures { result ≡ position (λ u. bytes_eq name.now u.name) uses.now }
{
    uses.iter().position(|declared| is_use_of(declared, name))
}

/// The place of the viewpoint of a name.
#[tactic(auto, using(crate::proofs::Finding::use_position))]
pub(crate) fn find_use(uses: &[Use], name: &Word) -> Option<usize>
    ensures { result ≡ position (bytes_eq name.now) (use_names uses.now) }
{
    use_place(uses, name)
}
