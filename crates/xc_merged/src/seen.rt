//! What a viewpoint sees of places of the map's variables.

ghost use Rattle.std.specs.Prelude.{◌≡◌, ◌<◌, ◌≤◌, ◌&&◌, length, not, take, if◌then◌else◌};
ghost use Rattle.std.specs.Str.{bytes_eq};
ghost use Rattle.xc_merged.specs.Seeing.{seen_by, AreReadable};

use crate::tables::{Feed, Tables};
use xc_base::List;

/// The places that are read, as the first entries of a row.
#[tactic(auto, using(std::proofs::lemmas::Grind::common_steps, crate::proofs::Seeing::none_seen, crate::proofs::Seeing::all_seen))]
pub(crate) fn places_seen(feeds: &List<Feed>, row: &[u8]) -> [u8; 20]
    requires few { length feeds.now ≤ 20 }
    requires readable { AreReadable feeds.now row.now }
    ensures { take (length feeds.now) result ≡ seen_by feeds.now row.now }
{
    let mut seen = [0; 20];
    for x in 0..feeds.len() {
        let feed = feeds.get(x);
        seen[x] = feed.places[usize::from(row[usize::from(feed.source)])];
    }
    seen
}

impl Tables {
    /// The element that a step has at least: the stutter value where the state changes and is seen not to.
    pub(crate) fn base(&self, same: bool, from: &[u8], to: &[u8]) -> u8
        ensures { result ≡ (if not same && bytes_eq from.now to.now then self.now.stutter else self.now.bottom) }
    {
        if !same && from == to {
            self.stutter
        } else {
            self.bottom
        }
    }
}
