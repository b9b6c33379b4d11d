//! The texts that go to out.

ghost use Rattle.std.specs.Prelude.{◌≡◌, ◌<◌, ◌∷◌, ◌++◌, length, IfOk, OnOk};
ghost use Rattle.std.specs.List.{flat_map};
ghost use Rattle.std.specs.String.{string_bytes};
ghost use Rattle.xc_base.specs.Names.{name_at};
ghost use Rattle.xc_lattice.specs.Values.{value_of};
ghost use Rattle.xc_lines.specs.Texts.{lattice_text, broken_text, law_word};

use std::alloc::{AllocError, Global};
use xc_base::{List, Word};
use xc_lattice::Lattice;
use xc_laws::Law;

/// The name of an element.
fn name_of(lattice: &Lattice, element: u8) -> &str
    requires { element < length (value_of lattice.now).names }
    ensures { result.now ≡ name_at (value_of lattice.now).names element }
{
    lattice.names().get(element as usize).as_str()
}

/// Appends a label and a value to a text.
pub fn push_both(text: &mut String, label: &str, value: &str) -> Result<(), AllocError>
    ensures { OnOk result (string_bytes text.new ≡ string_bytes text.old ++ label.now ++ value.now) }
{
    text.push_str(label)?;
    text.push_str(value)?;
    Ok(())
}

/// The text for a lattice of that height.
pub fn lattice_line(alloc: Global, lattice: &Lattice, height: u32) -> Result<String, AllocError>
    ensures { IfOk result (λ t. string_bytes t ≡ lattice_text (value_of lattice.now) height) }
{
    let size = lattice.size();
    let count = format!(in alloc; "{size}")?;
    let height = format!(in alloc; "{height}")?;
    let mut text = String::new(alloc);
    push_both(&mut text, "lattice ", lattice.name().as_str())?;
    push_both(&mut text, " elements ", count.as_str())?;
    push_both(&mut text, " height ", height.as_str())?;
    push_both(&mut text, " bottom ", name_of(lattice, lattice.bottom()))?;
    push_both(&mut text, " top ", name_of(lattice, lattice.top()))?;
    text.push_str("\n")?;
    Ok(text)
}

/// The word of a law.
pub fn word_of(law: Law) -> &'static str
    ensures { result.now ≡ law_word law }
{
    match law {
        Law::Antisymmetry => "antisymmetry",
        Law::Meet => "meet",
        Law::Join => "join",
        Law::Distributive => "distributive",
        Law::Involution => "involution",
        Law::Antitone => "antitone",
    }
}

/// Appends names, with a blank before each.
pub fn push_names(text: &mut String, names: &List<Word>) -> Result<(), AllocError>
    ensures { OnOk result (string_bytes text.new ≡ string_bytes text.old ++ flat_map (λ name. 32 ∷ name) names.now) }
{
    for name in names.as_slice() {
        text.push_str(" ")?;
        text.push_str(name.as_str())?;
    }
    Ok(())
}

/// The text for a file that breaks a law.
pub fn broken_text(alloc: Global, law: Law, elements: &List<Word>) -> Result<String, AllocError>
    ensures { IfOk result (λ t. string_bytes t ≡ broken_text law elements.now) }
{
    let mut text = String::new(alloc);
    push_both(&mut text, "broken ", word_of(law))?;
    push_names(&mut text, elements)?;
    text.push_str("\n")?;
    Ok(text)
}
