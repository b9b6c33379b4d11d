//! Where the map feeds the variables of a viewpoint from, and which of its propositions the viewpoint tells.

ghost use Rattle.std.specs.Prelude.{◌≡◌, ◌<◌, ◌==◌, ◌-◌, length, find, None};
ghost use Rattle.std.specs.Option.{option_copied, is_none};
ghost use Rattle.xc_forms.specs.Variables.{values_at};
ghost use Rattle.xc_sigmap.specs.Maps.{value_of as map_of};
ghost use Rattle.xc_merge.specs.Projections.{sends, line_for, pair_for, carried_word};
ghost use Rattle.xc_merge.specs.MergedFrames.{tells_of, line_of};
ghost use Rattle.xc_merge.specs.Faults.{carries_all, is_fed};
ghost use Rattle.xc_merge.specs.Finding.{Finds, carries_from, unfed_by, unfed, untold_by, untold};

use crate::fault::MergeFault;
use std::alloc::Global;
use xc_base::{Word, is_among};
use xc_forms::Domain;
use xc_sigmap::SigMap;
use xc_sigmap_lines::{Carry, SendLine, Tell};

fn is_line_for(line: &SendLine, number: usize, name: &Word) -> bool
    ensures { result ≡ sends number name.now line.now }
{
    usize::from(line.viewpoint) == number && name.as_str() == line.variable.as_str()
}

/// The line that says where a viewpoint reads its variable of that name from.
pub fn line_for<'a>(sigmap: &'a SigMap, number: usize, name: &Word) -> Option<&'a SendLine>
    ensures { option_copied result ≡ line_for (map_of sigmap.now) number name.now }
{
    sigmap
        .sends()
        .as_slice()
        .iter()
        .find(|line| is_line_for(line, number, name))
}

/// The pair of a value.
fn pair_for(line: &SendLine, value: usize) -> Option<&Carry>
    ensures { option_copied result ≡ pair_for line.now value }
{
    line.pairs
        .as_slice()
        .iter()
        .find(|pair| usize::from(pair.value) == value)
}

/// The word that a line carries a value of the map's variable to.
pub fn carried_word<'a>(sigmap: &'a SigMap, line: &'a SendLine, value: usize) -> &'a Word
    requires from { line.now.from < length (map_of sigmap.now).vars }
    requires value { value < length (values_at (map_of sigmap.now).vars line.now.from) }
    ensures { result.now ≡ carried_word (map_of sigmap.now) line.now value }
{
    match pair_for(line, value) {
        Some(pair) => &pair.word,
        None => sigmap.vars().get(usize::from(line.from)).values.get(value),
    }
}

/// Whether a line carries each value of the map's variable to a value of the viewpoint's.
#[tactic(auto, using(std::proofs::lemmas::Grind::common_steps, crate::proofs::Carrying::carries_steps))]
fn carries_all(sigmap: &SigMap, domain: &Domain, line: &SendLine) -> bool
    requires { line.now.from < length (map_of sigmap.now).vars }
    ensures { result ≡ carries_all (map_of sigmap.now) domain.now line.now }
{
    let count = sigmap.vars().get(usize::from(line.from)).values.len();
    for value in 0..count {
        let word = carried_word(sigmap, line, value);
        if !is_among(domain.values.as_slice(), word.as_str().as_bytes()) {
            return false;
        }
    }
    true
}

/// Whether a viewpoint's variable is fed with each value.
#[tactic(auto, using(std::proofs::lemmas::Grind::common_steps, crate::proofs::Carrying::line_in_range))]
fn is_fed(sigmap: &SigMap, number: usize, domain: &Domain) -> bool
    ensures { result ≡ is_fed (map_of sigmap.now) number domain.now }
{
    sigmap.is_sound();
    match line_for(sigmap, number, &domain.name) {
        Some(line) => carries_all(sigmap, domain, line),
        None => false,
    }
}

/// Asks whether a viewpoint's variable is fed.
fn look_for_feed(
    alloc: Global,
    viewpoint: &Word,
    sigmap: &SigMap,
    number: usize,
    domain: &Domain,
) -> Result<(), MergeFault>
    ensures { Finds (unfed_by viewpoint.now (map_of sigmap.now) number domain.now) result }
{
    if is_fed(sigmap, number, domain) {
        return Ok(());
    }
    let viewpoint = viewpoint.copy(alloc)?;
    let name = domain.name.copy(alloc)?;
    Err(MergeFault::NotTotal { viewpoint, name })
}

/// Asks whether all variables of a viewpoint are fed.
#[tactic(auto, using(std::proofs::lemmas::Grind::common_steps, crate::proofs::Steps::unfed_steps))]
pub(crate) fn look_for_feeds(
    alloc: Global,
    viewpoint: &Word,
    sigmap: &SigMap,
    number: usize,
    vars: &[Domain],
) -> Result<(), MergeFault>
    ensures { Finds (unfed viewpoint.now (map_of sigmap.now) number vars.now) result }
{
    for domain in vars {
        look_for_feed(alloc, viewpoint, sigmap, number, domain)?;
    }
    Ok(())
}

fn is_line_of(line: &Tell, number: usize, prop: usize) -> bool
    ensures { result ≡ tells_of number prop line.now }
{
    usize::from(line.viewpoint) == number && usize::from(line.prop) == prop
}

/// The line on what a viewpoint tells of a proposition of the map.
pub fn line_of<'a>(sigmap: &'a SigMap, number: usize, prop: usize) -> Option<&'a Tell>
    ensures { option_copied result ≡ line_of (map_of sigmap.now) number prop }
{
    sigmap
        .tells()
        .as_slice()
        .iter()
        .find(|line| is_line_of(line, number, prop))
}

/// Asks whether a viewpoint tells a proposition of the map.
fn look_for_telling(
    alloc: Global,
    viewpoint: &Word,
    sigmap: &SigMap,
    number: usize,
    prop: usize,
) -> Result<(), MergeFault>
    requires { prop < length (map_of sigmap.now).props }
    ensures { Finds (untold_by viewpoint.now (map_of sigmap.now) number prop) result }
{
    if line_of(sigmap, number, prop).is_some() {
        return Ok(());
    }
    let viewpoint = viewpoint.copy(alloc)?;
    let name = sigmap.props().get(prop).copy(alloc)?;
    Err(MergeFault::NotTotal { viewpoint, name })
}

/// Asks whether a viewpoint tells all propositions of the map.
#[tactic(auto, using(std::proofs::lemmas::Grind::common_steps, crate::proofs::Carrying::untold_steps))]
pub(crate) fn look_for_tellings(
    alloc: Global,
    viewpoint: &Word,
    sigmap: &SigMap,
    number: usize,
) -> Result<(), MergeFault>
    ensures { Finds (untold viewpoint.now (map_of sigmap.now) number 0 (length (map_of sigmap.now).props)) result }
{
    for prop in 0..sigmap.props().len() {
        look_for_telling(alloc, viewpoint, sigmap, number, prop)?;
    }
    Ok(())
}
