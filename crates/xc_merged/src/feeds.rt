//! Where the variables of a viewpoint are read from.

ghost use Rattle.std.specs.Prelude.{◌≡◌, ◌<◌, ◌≤◌, ℕ, true, length, slice_index, IfOk};
ghost use Rattle.xc_base.specs.Names.{place_of};
ghost use Rattle.xc_forms.specs.Variables.{values_at};
ghost use Rattle.xc_sigmap.specs.Maps.{value_of as map_of};
ghost use Rattle.xc_merge.specs.Faults.{is_fed};
ghost use Rattle.xc_merge.specs.Projections.{carried_place};
ghost use Rattle.xc_merged.specs.Tabled.{AreFed, AreFeeds, IsFeed};

use crate::tables::Feed;
use std::alloc::Global;
use xc_base::{List, Memory, Word, find_name};
use xc_forms::{Domain, Vars};
use xc_merge::{carried_word, line_for};
use xc_sigmap::SigMap;
use xc_sigmap_lines::SendLine;

/// The place of a word among some values, and their number where it is not there.
#[tactic(auto, using(xc_base::proofs::Naming::place_from))]
fn place_in(values: &List<Word>, word: &Word) -> u8
    requires { length values.now ≤ 16 }
    ensures { result ≡ place_of values.now word.now }
{
    let place = find_name(values.as_slice(), word.as_str().as_bytes()).unwrap_or(values.len());
    place as u8
}

/// The places that a line carries values to.
#[tactic(auto, using(std::proofs::lemmas::Grind::common_steps))]
fn carried_places(sigmap: &SigMap, line: &SendLine, domain: &Domain) -> [u8; 16]
    requires from { line.now.from < length (map_of sigmap.now).vars }
    requires few { length domain.now.values ≤ 16 }
    ensures { (m : ℕ) → m < length (values_at (map_of sigmap.now).vars line.now.from) → slice_index result m ≡ carried_place (map_of sigmap.now) line.now domain.now m }
{
    sigmap.is_sound();
    let mut places = [0; 16];
    let count = sigmap.vars().get(usize::from(line.from)).values.len();
    for value in 0..count {
        let word = carried_word(sigmap, line, value);
        places[value] = place_in(&domain.values, word);
    }
    places
}

/// Where a variable that is fed is read from.
fn feed_of(sigmap: &SigMap, number: usize, domain: &Domain) -> Feed
    requires fed { is_fed (map_of sigmap.now) number domain.now ≡ true }
    requires few { length domain.now.values ≤ 16 }
    ensures { IsFeed (map_of sigmap.now) number domain.now result }
{
    sigmap.is_sound();
    match line_for(sigmap, number, &domain.name) {
        Some(line) => Feed {
            source: line.from,
            places: carried_places(sigmap, line, domain),
        },
        None => Feed {
            source: 0,
            places: [0; 16],
        },
    }
}

/// Where the variables of a viewpoint are read from.
pub(crate) fn feeds_of(
    alloc: Global,
    sigmap: &SigMap,
    number: usize,
    vars: &Vars,
) -> Result<List<Feed>, Memory>
    requires fed { AreFed (map_of sigmap.now) number vars.now }
    requires few { (x : ℕ) → x < length vars.now → length (values_at vars.now x) ≤ 16 }
    ensures { IfOk result (AreFeeds (map_of sigmap.now) number vars.now) }
{
    let mut feeds = List::new(alloc);
    for x in 0..vars.len() {
        feeds.push(feed_of(sigmap, number, vars.get(x)))?;
    }
    Ok(feeds)
}
