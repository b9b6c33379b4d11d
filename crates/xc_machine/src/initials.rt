//! The initial states of the merged machine. Where no variable beyond some first ones decides whether states are initial, they are
//! not asked one by one.

ghost use Rattle.std.specs.Prelude.{◌≡◌, ◌+◌, ◌<◌, ◌≤◌, ◌++◌, ◌^◌, length, take, IfOk, OnOk};
ghost use Rattle.std.specs.List.{range_with_len};
ghost use Rattle.xc_theory.specs.Codes.{AreDigits};
ghost use Rattle.xc_forms.specs.Variables.{sizes_of};
ghost use Rattle.xc_sigmap.specs.Maps.{value_of as map_of};
ghost use Rattle.xc_machine.specs.Descent.{known_by, AreJudged, IsBlock, IsFound, IsJudgedFor};
ghost use Rattle.xc_merge.specs.Merges.{viewpoint_at};
ghost use Rattle.xc_merge.specs.Projections.{row_of, states_of};
ghost use Rattle.xc_merge.specs.MergedFrames.{is_initial_for, is_merged_initial};
ghost use Rattle.xc_merged.specs.Gathered.{merged_of};

use crate::judgement::{Judgement, judge};
use std::alloc::Global;
use xc_base::{List, Memory};
use xc_merged::{Feed, Merged};
use xc_moves::{holds_in, places_of};

/// Some states in order that are all initial, or of which none is.
#[derive(Clone, Copy, Debug)]
pub(crate) struct Block {
    pub(crate) size: u32,
    pub(crate) initial: bool,
}

/// How many initial states were found, and, where they are not too many, which.
#[derive(Debug, Drop)]
pub(crate) struct Found {
    pub(crate) count: u32,
    pub(crate) states: List<u32>,
}

/// Appends the states from one on.
fn push_states(states: &mut List<u32>, first: u32, size: u32) -> Result<(), Memory>
    requires { first + size < 2 ^ 32 }
    ensures { OnOk result (states.new ≡ states.old ++ range_with_len first size) }
{
    for state in first..first + size {
        states.push(state)?;
    }
    Ok(())
}

impl Found {
    ghost use Rattle.std.specs.Prelude.{if◌then◌else◌, []};

    /// Adds the states of a block, where they are initial.
    fn add(&mut self, first: u32, block: Block) -> Result<(), Memory>
        requires count { self.old.count + block.size < 2 ^ 32 }
        requires states { first + block.size < 2 ^ 32 }
        ensures count { OnOk result (self.new.count ≡ (if block.initial then self.old.count + block.size else self.old.count)) }
        ensures states { OnOk result (self.new.count ≤ 4096 → self.new.states ≡ self.old.states ++ (if block.initial then range_with_len first block.size else [])) }
    {
        if !block.initial {
            return Ok(());
        }
        self.count += block.size;
        if self.count <= 4096 {
            push_states(&mut self.states, first, block.size)?;
        }
        Ok(())
    }
}

/// Which variables are read from the first ones of the map, as the first entries of a row.
#[tactic(auto, using(std::proofs::lemmas::Grind::common_steps, crate::proofs::Descending::all_known))]
fn known(feeds: &List<Feed>, depth: usize) -> [bool; 20]
    requires { length feeds.now ≤ 20 }
    ensures { take (length feeds.now) result ≡ known_by feeds.now depth }
{
    let mut known = [false; 20];
    for x in 0..feeds.len() {
        known[x] = usize::from(feeds.get(x).source) < depth;
    }
    known
}

/// Whether a state is initial for a viewpoint, by the places of the map's variables.
fn is_initial_for(merged: &Merged, v: usize, s: u32, row: &[u8]) -> bool
    requires v { v < length merged.now.views }
    requires s { s < states_of (map_of merged.now.sigmap) }
    requires row { row.now ≡ row_of (map_of merged.now.sigmap) s }
    ensures { result ≡ is_initial_for (map_of merged.now.sigmap) s v (viewpoint_at (merged_of merged.now) v) }
{
    let places = merged.seen(v, row);
    let pair = merged.views.get(v);
    let view = &pair.0;
    view.is_sound();
    let vars = view.vars();
    let count = vars.len();
    let seen = &places[..count];
    holds_in(view.init(), vars, seen)
}

/// Whether a state is initial for each viewpoint.
#[tactic(auto, using(std::proofs::lemmas::Grind::common_steps, crate::proofs::Descending::initial_more, crate::proofs::Descending::initial_none, crate::proofs::Descending::initial_all))]
pub(crate) fn is_initial(merged: &Merged, s: u32) -> bool
    requires { s < states_of (map_of merged.now.sigmap) }
    ensures { result ≡ is_merged_initial (merged_of merged.now) s }
{
    merged.sigmap.is_sound();
    let vars = merged.sigmap.vars();
    let places = places_of(vars, s);
    let row = &places[..vars.len()];
    for v in 0..merged.views.len() {
        if !is_initial_for(merged, v, s, row) {
            return false;
        }
    }
    true
}

/// What a viewpoint says of all states whose first places these are.
fn judge_for(merged: &Merged, v: usize, depth: usize, row: &[u8]) -> Judgement
    requires v { v < length merged.now.views }
    requires row { AreDigits (sizes_of (map_of merged.now.sigmap).vars) row.now }
    ensures { IsJudgedFor (merged_of merged.now) depth row.now v result }
{
    let places = merged.seen(v, row);
    let pair = merged.views.get(v);
    let view = &pair.0;
    view.is_sound();
    let tables = merged.tables.get(v);
    let read = known(&tables.feeds, depth);
    let vars = view.vars();
    let count = vars.len();
    let seen = &places[..count];
    let known = &read[..count];
    judge(view.init(), vars, seen, known)
}

/// What the viewpoints up to one say, of what those before it say.
#[tactic(auto, using(std::proofs::lemmas::Grind::common_steps, crate::proofs::Descending::next_judged, crate::proofs::Descending::still_fails))]
fn judge_next(merged: &Merged, before: Judgement, v: usize, depth: usize, row: &[u8]) -> Judgement
    requires v { v < length merged.now.views }
    requires row { AreDigits (sizes_of (map_of merged.now.sigmap).vars) row.now }
    requires before { AreJudged (merged_of merged.now) depth row.now v before }
    ensures { AreJudged (merged_of merged.now) depth row.now (v + 1) result }
{
    if before == Judgement::Fails {
        before
    } else {
        before.and(judge_for(merged, v, depth, row))
    }
}

/// What all viewpoints say.
#[tactic(auto, using(std::proofs::lemmas::Grind::common_steps, crate::proofs::Descending::none_judged))]
fn judge_all(merged: &Merged, depth: usize, row: &[u8]) -> Judgement
    requires { AreDigits (sizes_of (map_of merged.now.sigmap).vars) row.now }
    ensures { AreJudged (merged_of merged.now) depth row.now (length merged.now.views) result }
{
    let mut all = Judgement::Holds;
    for v in 0..merged.views.len() {
        all = judge_next(merged, all, v, depth, row);
    }
    all
}

/// As many states from one on as are found to be alike.
fn block_at(merged: &Merged, first: u32, states: u32) -> Block
    requires first { first < states_of (map_of merged.now.sigmap) }
    requires states { states ≡ states_of (map_of merged.now.sigmap) }
    ensures { IsBlock (merged_of merged.now) first result }
{
    merged.sigmap.is_sound();
    let vars = merged.sigmap.vars();
    let places = places_of(vars, first);
    let row = &places[..vars.len()];
    let mut size = states;
    for depth in 0..vars.len() {
        if first % size == 0 {
            match judge_all(merged, depth, row) {
                Judgement::Holds => {
                    return Block {
                        size,
                        initial: true,
                    };
                }
                Judgement::Fails => {
                    return Block {
                        size,
                        initial: false,
                    };
                }
                Judgement::Open => {}
            }
        }
        size /= vars.get(depth).values.len() as u32;
    }
    Block {
        size: 1,
        initial: is_initial(merged, first),
    }
}

/// The initial states.
pub(crate) fn find_initials(alloc: Global, merged: &Merged) -> Result<Found, Memory>
    ensures { IfOk result (IsFound (merged_of merged.now) (states_of (map_of merged.now.sigmap))) }
{
    let states = merged.states();
    let mut found = Found {
        count: 0,
        states: List::new(alloc),
    };
    let mut first = 0;
    while first < states {
        let block = block_at(merged, first, states);
        found.add(first, block)?;
        first += block.size;
    }
    Ok(found)
}
