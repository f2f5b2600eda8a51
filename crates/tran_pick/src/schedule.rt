//! The first class with a code that may be served.
ghost use Rattle.std.specs.Prelude.{◌≡◌, ◌≤◌, ◌-◌, [], length, slice_index_or, IfSome, IfNone};
ghost use Rattle.std.specs.Option.{option_map, IsSome};
ghost use Rattle.model_system.specs.Codes.{code_at};
ghost use Rattle.model_machine.specs.Pick.{Candidate, best_of, pick_among, pick_of};
ghost use Rattle.system_types.specs.ValidSystem.{IsSystem};
ghost use Rattle.tran_pick.specs.RegionPick.{offered_in, IsFirstFree, IsPicked, IsUnheldIfSerial, NonePicked};

use crate::Pick;
use crate::candidate::{Candidate, better, candidate_of};
use model_system::{Code, CodeState};
use msg_queues::Queues;
use system_types::{Codes, System};

/// The message that this region takes next, or None exactly where no code is eligible.
///
/// The region's classes are looked at in their order. A code is eligible where it has the class,
/// isn't stopped, has a priority above 0 and offers a message: its first one that no region has,
/// where it is serial only while no region has one of it. The first class
/// with an eligible code is served, in it the highest priority, and on a tie the code whose offered
/// message has the lowest id. What it takes is there and no region has it, and its code is one of
/// the system's. This takes no memory.
pub fn pick(system: &System, region: u32, state: &Codes, queues: &Queues) -> Option<Pick>
    requires positive { 1 ≤ region }
    requires defined { region ≤ length system.now.regions }
    ensures value { result ≡ option_map (λ c. record { code = c.code; id = c.id }) (pick_of system.now region state.now (offered_in queues.now.queued)) }
    ensures picked { IfSome result (λ p. (c : Candidate) × (c.code ≡ p.code) × (c.id ≡ p.id) × IsPicked (offered_in queues.now.queued) (slice_index_or system.now.regions (region - 1) []) system.now.codes state.now c) }
    ensures none { IfNone result (NonePicked (offered_in queues.now.queued) (slice_index_or system.now.regions (region - 1) []) system.now.codes state.now) }
    ensures free { IfSome result (λ pick. IsFirstFree queues.now.queued pick.code pick.id) }
    ensures serial { IfSome result (λ pick. IfSome (code_at system.now.codes pick.code) (IsUnheldIfSerial queues.now.queued)) }
    ensures code { IfSome result (λ pick. IsSome (code_at system.now.codes pick.code)) }
{
    match candidate_for(system, region, state, queues) {
        Some(candidate) => Some(Pick {
            code: candidate.code(),
            id: candidate.id(),
        }),
        None => None,
    }
}

fn candidate_for(system: &System, region: u32, state: &Codes, queues: &Queues) -> Option<Candidate>
    requires positive { 1 ≤ region }
    requires defined { region ≤ length system.now.regions }
    ensures value { result ≡ pick_of system.now region state.now (offered_in queues.now.queued) }
    ensures valid { IsSystem system.now }
    ensures free { IfSome result (λ c. IsFirstFree queues.now.queued c.code c.id) }
{
    let classes = &system.regions()[region as usize - 1];
    if !queues.has_free() {
        return None;
    }
    pick_among(classes.as_slice(), system.codes(), state.states(), queues)
}

// The candidate of the first class that has one.
fn pick_among(
    classes: &[u8],
    codes: &[Code],
    states: &[CodeState],
    queues: &Queues,
) -> Option<Candidate>
    ensures value { result ≡ pick_among (offered_in queues.now.queued) classes.now codes.now states.now }
    ensures free { IfSome result (λ c. IsFirstFree queues.now.queued c.code c.id) }
{
    for class in classes {
        if let Some(best) = best_of(*class, codes, states, queues) {
            return Some(best);
        }
    }
    None
}

// Of the codes with this class the one that goes first.
fn best_of(class: u8, codes: &[Code], states: &[CodeState], queues: &Queues) -> Option<Candidate>
    ensures value { result ≡ best_of (offered_in queues.now.queued) class codes.now states.now }
    ensures free { IfSome result (λ c. IsFirstFree queues.now.queued c.code c.id) }
{
    let mut best = None;
    for (code, state) in codes.iter().zip(states) {
        best = better(best, candidate_of(class, code, state, queues));
    }
    best
}
