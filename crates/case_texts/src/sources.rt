//! Where the text of a file comes from.

ghost use Rattle.std.specs.Prelude.{◌≡◌, Some, option_map, IfOk};
ghost use Rattle.case_texts.specs.Sources.{text_called};

use crate::case::NamedText;
use crate::fault::{NameFault, Why, name_fault};
use std::alloc::Global;

/// The texts that cases take theirs from.
#[derive(Clone, Copy)]
pub struct Sources<'a> {
    /// The example files.
    pub examples: &'a [NamedText],
    /// The outs of the cases so far.
    pub outs: &'a [NamedText],
}

/// The text of a name.
pub fn find<'a>(texts: &'a [NamedText], name: &str) -> Option<&'a [u8]>
    ensures { option_map (λ text. text.now) result ≡ text_called name.now texts.now }
{
    for text in texts {
        if text.name.as_str() == name {
            return Some(text.bytes.as_slice());
        }
    }
    None
}

/// The bytes of an example file.
pub fn example_of(alloc: Global, sources: &Sources<'_>, name: &str) -> Result<Vec<u8>, Why>
    ensures { IfOk result (λ bytes. text_called name.now sources.now.examples.now ≡ Some bytes.items) }
{
    match find(sources.examples, name) {
        Some(bytes) => Ok(Vec::from_slice(alloc, bytes)?),
        None => Err(name_fault(alloc, NameFault::NoExample, name)),
    }
}

/// The whole out of an earlier case.
pub fn out_of(alloc: Global, sources: &Sources<'_>, name: &str) -> Result<Vec<u8>, Why>
    ensures { IfOk result (λ bytes. text_called name.now sources.now.outs.now ≡ Some bytes.items) }
{
    match find(sources.outs, name) {
        Some(bytes) => Ok(Vec::from_slice(alloc, bytes)?),
        None => Err(name_fault(alloc, NameFault::NoEarlierCase, name)),
    }
}
