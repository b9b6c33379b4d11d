ghost use Rattle.std.specs.Prelude.{◌≡◌, true};
ghost use Rattle.xc_sigmap.specs.Sound.{is_sound};

use xc_base::{List, Word};
use xc_forms::Vars;
use xc_sigmap_lines::{SendLine, Stutter, Tell, Use};

/// Which viewpoints are merged, over which variables and propositions, and what each viewpoint sends and tells.
///
/// What viewpoints have of their own stays a word, to be looked up in their files. What is named by number is there, nothing is said
/// twice that may be said once, and nothing is longer or more than it may be.
#[derive(Debug, Drop)]
pub struct SigMap {
    name: Word,
    uses: List<Use>,
    vars: Vars,
    props: List<Word>,
    sends: List<SendLine>,
    tells: List<Tell>,
    stutters: List<Stutter>,
    ghost sound: { is_sound (record { name = name; uses = uses; vars = vars; props = props; sends = sends; tells = tells; stutters = stutters }) ≡ true },
}

impl SigMap {
    ghost use Rattle.xc_sigmap.specs.Maps.{value_of};

    /// The map of these parts.
    pub(crate) fn of(
        name: Word,
        uses: List<Use>,
        vars: Vars,
        props: List<Word>,
        sends: List<SendLine>,
        tells: List<Tell>,
        stutters: List<Stutter>,
    ) -> SigMap
        requires { is_sound (record { name = name; uses = uses; vars = vars; props = props; sends = sends; tells = tells; stutters = stutters }) ≡ true }
        ensures { value_of result
            ≡ record { name = name; uses = uses; vars = vars; props = props; sends = sends; tells = tells; stutters = stutters } }
    {
        SigMap {
            name,
            uses,
            vars,
            props,
            sends,
            tells,
            stutters,
        }
    }

    /// The map's name.
    pub fn name(&self) -> &Word
        ensures { result.now ≡ (value_of self.now).name }
    {
        &self.name
    }

    /// Its viewpoints, in order.
    pub fn uses(&self) -> &List<Use>
        ensures { result.now ≡ (value_of self.now).uses }
    {
        &self.uses
    }

    /// The variables of the merged machine.
    pub fn vars(&self) -> &Vars
        ensures { result.now ≡ (value_of self.now).vars }
    {
        &self.vars
    }

    /// The names of the merged machine's propositions.
    pub fn props(&self) -> &List<Word>
        ensures { result.now ≡ (value_of self.now).props }
    {
        &self.props
    }

    /// Where the viewpoints read their variables from.
    pub fn sends(&self) -> &List<SendLine>
        ensures { result.now ≡ (value_of self.now).sends }
    {
        &self.sends
    }

    /// What the viewpoints tell of propositions.
    pub fn tells(&self) -> &List<Tell>
        ensures { result.now ≡ (value_of self.now).tells }
    {
        &self.tells
    }

    /// The values that viewpoints give to steps that they cannot see.
    pub fn stutters(&self) -> &List<Stutter>
        ensures { result.now ≡ (value_of self.now).stutters }
    {
        &self.stutters
    }

    /// In a map what is named by number is there, nothing is said twice that may be said once, and nothing is longer or more than it
    /// may be.
    pub fn is_sound(&self)
        ensures { is_sound (value_of self.now) ≡ true }
    {}
}
