//! Canonical texts of maps.

ghost use Rattle.std.specs.Prelude.{◌≡◌, ◌≤◌, ℕ, None, length, IfOk};
ghost use Rattle.xc_base.specs.Canonical.{canonical};
ghost use Rattle.xc_base.specs.Formats.{IsAccepted};
ghost use Rattle.xc_base.specs.Lines.{text_rows};
ghost use Rattle.xc_base.specs.Text.{text_fault};
ghost use Rattle.xc_sigmap_lines.specs.MapFiles.{map_format};
ghost use Rattle.xc_sigmap.specs.Maps.{value_of};
ghost use Rattle.xc_sigmap_text.specs.Printing.{map_lines};

use crate::lines::{
    push_name, push_props, push_sends, push_stutters, push_tells, push_uses, push_vars,
};
use std::alloc::Global;
use xc_base::{Bytes, List, Memory};
use xc_sigmap::SigMap;

/// The canonical text of a map, or that memory ran out. It is read again as the same map.
pub fn print(alloc: Global, map: &SigMap) -> Result<Bytes, Memory>
    ensures text { IfOk result (λ text. text ≡ canonical (map_lines (value_of map.now))) }
    ensures again { IfOk result (λ text. IsAccepted map_format (text_rows text) (value_of map.now)) }
    ensures sound { IfOk result (λ text. (limit : ℕ) → length text ≤ limit → text_fault limit text ≡ None) }
{
    map.is_sound();
    let mut text = List::new(alloc);
    push_name(&mut text, map.name())?;
    push_uses(&mut text, map.uses().as_slice())?;
    push_vars(alloc, &mut text, map.vars().as_slice())?;
    push_props(&mut text, map.props().as_slice())?;
    push_sends(alloc, &mut text, map)?;
    push_tells(alloc, &mut text, map)?;
    push_stutters(&mut text, map)?;
    Ok(text)
}
