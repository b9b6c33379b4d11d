//! What an encoder reads of a machine, viewpoint by viewpoint.

ghost use Rattle.std.specs.Prelude.{◌≡◌, ◌<◌, length, IfSome};
ghost use Rattle.xc_theory.specs.Lattices.{size};
ghost use Rattle.xc_forms.specs.Variables.{values_at};
ghost use Rattle.xc_merge.specs.Merges.{viewpoint_at};
ghost use Rattle.xc_merge.specs.Pieces.{weight, mark, counts, fixed, stutter};
ghost use Rattle.xc_merge.specs.Projections.{source, carried};
ghost use Rattle.xc_machine.specs.Places.{variable_at, command_at, line_at};

use crate::machine::Machine;
use xc_merged::is_good;

impl Machine {
    ghost use Rattle.xc_machine.specs.Machines.{merge_of};

    /// The variable of the map that a viewpoint's variable is read from.
    pub fn source(&self, v: u8, x: u8) -> u8
        requires viewpoint { v < length (merge_of self.now).viewpoints }
        requires variable { x < length (viewpoint_at (merge_of self.now) v).view.vars }
        ensures source { result ≡ source (merge_of self.now).plan v (variable_at (viewpoint_at (merge_of self.now) v).view x) }
        ensures within { result < length (merge_of self.now).plan.vars }
    {
        let number = usize::from(v);
        let tables = self.merged.tables.get(number);
        let place = usize::from(x);
        let feed = tables.feeds.get(place);
        feed.source
    }

    /// The place of a viewpoint's variable that a value of the map's variable is carried to.
    pub fn carried(&self, v: u8, x: u8, m: u8) -> u8
        requires viewpoint { v < length (merge_of self.now).viewpoints }
        requires variable { x < length (viewpoint_at (merge_of self.now) v).view.vars }
        requires value { m < length (values_at (merge_of self.now).plan.vars (source (merge_of self.now).plan v (variable_at (viewpoint_at (merge_of self.now) v).view x))) }
        ensures place { result ≡ carried (merge_of self.now).plan v (variable_at (viewpoint_at (merge_of self.now) v).view x) m }
        ensures within { result < length (values_at (viewpoint_at (merge_of self.now) v).view.vars x) }
    {
        self.merged.sigmap.is_sound();
        let number = usize::from(v);
        let tables = self.merged.tables.get(number);
        let place = usize::from(x);
        let feed = tables.feeds.get(place);
        let value = usize::from(m);
        feed.places[value]
    }

    /// The element of a command's value.
    pub fn weight(&self, v: u8, c: u16) -> u8
        requires viewpoint { v < length (merge_of self.now).viewpoints }
        requires command { c < length (viewpoint_at (merge_of self.now) v).view.commands }
        ensures element { result ≡ weight (viewpoint_at (merge_of self.now) v) (command_at (viewpoint_at (merge_of self.now) v).view c) }
        ensures within { result < size (viewpoint_at (merge_of self.now) v).lattice.algebra }
    {
        let number = usize::from(v);
        let tables = self.merged.tables.get(number);
        let place = usize::from(c);
        *tables.weights.get(place)
    }

    /// The element of the value of a proposition's line.
    pub fn mark(&self, v: u8, l: u16) -> u8
        requires viewpoint { v < length (merge_of self.now).viewpoints }
        requires line { l < length (viewpoint_at (merge_of self.now) v).view.props }
        ensures element { result ≡ mark (viewpoint_at (merge_of self.now) v) (line_at (viewpoint_at (merge_of self.now) v).view l) }
        ensures within { result < size (viewpoint_at (merge_of self.now) v).lattice.algebra }
    {
        let number = usize::from(v);
        let tables = self.merged.tables.get(number);
        let place = usize::from(l);
        *tables.marks.get(place)
    }

    /// Whether a line counts for what a viewpoint tells of a proposition of the map.
    pub fn counts(&self, v: u8, l: u16, p: u16) -> bool
        requires viewpoint { v < length (merge_of self.now).viewpoints }
        requires line { l < length (viewpoint_at (merge_of self.now) v).view.props }
        requires prop { p < length (merge_of self.now).plan.props }
        ensures { result ≡ counts (merge_of self.now).plan v (line_at (viewpoint_at (merge_of self.now) v).view l) p }
    {
        let number = usize::from(v);
        let tables = self.merged.tables.get(number);
        let prop = usize::from(p);
        let telling = tables.tellings.get(prop);
        let place = usize::from(l);
        *telling.counts.get(place)
    }

    /// The element that a viewpoint tells of a proposition of the map everywhere, where it tells a constant.
    pub fn fixed(&self, v: u8, p: u16) -> Option<u8>
        requires viewpoint { v < length (merge_of self.now).viewpoints }
        requires prop { p < length (merge_of self.now).plan.props }
        ensures element { result ≡ fixed (merge_of self.now).plan v (viewpoint_at (merge_of self.now) v) p }
        ensures within { IfSome result (λ c. c < size (viewpoint_at (merge_of self.now) v).lattice.algebra) }
    {
        let number = usize::from(v);
        let tables = self.merged.tables.get(number);
        let prop = usize::from(p);
        let telling = tables.tellings.get(prop);
        telling.fixed
    }

    /// The element that a viewpoint gives to steps that it does not see.
    pub fn stutter(&self, v: u8) -> u8
        requires { v < length (merge_of self.now).viewpoints }
        ensures element { result ≡ stutter (merge_of self.now).plan v (viewpoint_at (merge_of self.now) v) }
        ensures within { result < size (viewpoint_at (merge_of self.now) v).lattice.algebra }
    {
        let number = usize::from(v);
        let pair = self.merged.views.get(number);
        is_good(&pair.1);
        let tables = self.merged.tables.get(number);
        tables.stutter
    }
}
