//! The states of a system's codes.
ghost use Rattle.std.specs.Prelude.{◌≡◌, ◌<◌, IfOk, IfSome, length, slice_set, slice_get, Some, position, map};
ghost use Rattle.std.specs.Str.{bytes_eq};
ghost use Rattle.model_system.specs.Lists.{change_at};
ghost use Rattle.system_types.specs.Codes as spec;

use crate::System;
use model_system::{Code, CodeState};
use std::alloc::{AllocError, Global};
use std::marker::Model;
use tm_types::Name;

/// The states of a system's codes, in the order of the definition; seen as a list.
#[derive(Debug, Drop)]
pub struct Codes {
    items: Vec<CodeState>,
}

impl Model for Codes {
    ghost use Rattle.std.specs.Prelude.{List};
    ghost use Rattle.model_system.specs.declared.code_state.CodeState.{CodeState};

    ghost Value = { List CodeState };

    ghost view = { λ c. c.items.items };
}

impl Codes {
    /// The codes as the definition has them: none is stopped, and the normal priority counts.
    pub fn of(alloc: Global, system: &System) -> Result<Codes, AllocError>
        ensures { IfOk result (λ codes. codes ≡ map spec.first_state system.now.codes) }
    {
        Ok(Codes {
            items: first_states(alloc, system.codes())?,
        })
    }

    /// These states, in the order of the definition.
    pub fn with(states: Vec<CodeState>) -> Codes
        ensures { result ≡ states.items }
    {
        Codes { items: states }
    }

    /// The states, in the order of the definition.
    pub fn states(&self) -> &[CodeState]
        ensures { result.now ≡ self.now }
    {
        &self.items
    }

    /// Makes the limit priority count, or the normal one.
    pub fn set_raised(&mut self, place: usize, raised: bool)
        requires { place < length self.old }
        ensures { self.new ≡ spec.with_raised place raised self.old }
    {
        set_raised(&mut self.items, place, raised)
    }

    /// Stops the code of this name, or starts it; where it isn't one, nothing changes.
    pub fn set_stopped(&mut self, code: &Name, stopped: bool)
        ensures { self.new ≡ change_at self.old (position (spec.is_state_of code.now) self.old) (spec.stopped_state stopped) }
    {
        match place_of(&self.items, code) {
            Some(place) => stop_at(&mut self.items, place, stopped),
            None => {}
        }
    }

    /// Gives the code of this name another class; where it isn't one, nothing changes.
    pub fn set_class(&mut self, code: &Name, class: u8)
        ensures { self.new ≡ change_at self.old (position (spec.is_state_of code.now) self.old) (spec.classed_state class) }
    {
        match place_of(&self.items, code) {
            Some(place) => class_at(&mut self.items, place, class),
            None => {}
        }
    }

    /// Gives the code of this name another normal priority; where it isn't one, nothing changes.
    pub fn set_priority(&mut self, code: &Name, priority: u8)
        ensures { self.new ≡ change_at self.old (position (spec.is_state_of code.now) self.old) (spec.ranked_state priority) }
    {
        match place_of(&self.items, code) {
            Some(place) => rank_at(&mut self.items, place, priority),
            None => {}
        }
    }
}

fn first_states(alloc: Global, codes: &[Code]) -> Result<Vec<CodeState>, AllocError>
    ensures { IfOk result (λ states. states.items ≡ map spec.first_state codes.now) }
{
    codes.iter().map(|code| first_state(code)).collect(alloc)
}

fn first_state(code: &Code) -> CodeState
    ensures { result ≡ spec.first_state code.now }
{
    CodeState {
        code: code.transaction.code,
        stopped: false,
        class: code.transaction.class,
        priority: code.transaction.normal_priority,
        raised: false,
    }
}

fn place_of(states: &[CodeState], code: &Name) -> Option<usize>
    ensures value { result ≡ position (spec.is_state_of code.now) states.now }
    ensures within { IfSome result (λ place. place < length states.now) }
{
    states.iter().position(|state| is_state_of(code, state))
}

fn is_state_of(code: &Name, state: &CodeState) -> bool
    ensures { result ≡ spec.is_state_of code.now state.now }
{
    &state.code == code
}

#[tactic(auto, using(crate::proofs::RaisedFlag::raised_is_set))]
fn set_raised(states: &mut [CodeState], place: usize, raised: bool)
    requires { place < length states.old }
    ensures { states.new ≡ spec.with_raised place raised states.old }
{
    let state = states[place];
    states[place] = CodeState { raised, ..state };
}

fn stop_at(states: &mut Vec<CodeState>, place: usize, stopped: bool)
    requires { place < length states.old.items }
    ensures { states.new.items ≡ change_at states.old.items (Some place) (spec.stopped_state stopped) }
{
    note_stopped(&mut states[place], stopped);
}

fn note_stopped(state: &mut CodeState, stopped: bool)
    ensures { state.new ≡ spec.stopped_state stopped state.old }
{
    state.stopped = stopped;
}

fn class_at(states: &mut Vec<CodeState>, place: usize, class: u8)
    requires { place < length states.old.items }
    ensures { states.new.items ≡ change_at states.old.items (Some place) (spec.classed_state class) }
{
    note_class(&mut states[place], class);
}

fn note_class(state: &mut CodeState, class: u8)
    ensures { state.new ≡ spec.classed_state class state.old }
{
    state.class = class;
}

fn rank_at(states: &mut Vec<CodeState>, place: usize, priority: u8)
    requires { place < length states.old.items }
    ensures { states.new.items ≡ change_at states.old.items (Some place) (spec.ranked_state priority) }
{
    note_priority(&mut states[place], priority);
}

fn note_priority(state: &mut CodeState, priority: u8)
    ensures { state.new ≡ spec.ranked_state priority state.old }
{
    state.priority = priority;
}
