//! Codes that a region may serve.
ghost use Rattle.std.specs.Prelude.{◌≡◌, if◌then◌else◌, IfSome};
ghost use Rattle.tran_pick.specs.RegionPick.{offered_in, IsFirstFree};
ghost use Rattle.model_machine.specs.Pick.{current_priority, is_code_served, candidate_of, better, goes_first};

use model_system::{Code, CodeState};
use msg_queues::Queues;
use std::marker::Model;
use tm_types::Name;

/// A code that a region may serve, with the priority that counts now and the message that it
/// offers.
#[derive(Debug, Drop)]
pub struct Candidate {
    code: Name,
    priority: u8,
    id: u64,
}

impl Model for Candidate {
    ghost use Rattle.model_machine.specs.Pick as model;

    ghost Value = { model.Candidate };

    ghost view = { λ c. record { code = c.code; priority = c.priority; id = c.id } };
}

impl Candidate {
    pub fn code(&self) -> Name
        ensures { result ≡ self.now.code }
    {
        self.code
    }

    pub fn id(&self) -> u64
        ensures { result ≡ self.now.id }
    {
        self.id
    }

    /// Whether the code is served before the other: for its priority, or on a tie for its message.
    fn goes_first(&self, other: &Candidate) -> bool
        ensures { result ≡ goes_first self.now other.now }
    {
        other.priority < self.priority || (self.priority == other.priority && self.id < other.id)
    }
}

/// The priority of a code that counts now: the limit priority while it is raised.
pub fn current_priority(code: &Code, state: &CodeState) -> u8
    ensures { result ≡ current_priority code.now state.now }
{
    if state.raised {
        code.transaction.limit_priority
    } else {
        state.priority
    }
}

fn is_served(class: u8, code: &Code, state: &CodeState) -> bool
    ensures { result ≡ is_code_served class code.now state.now }
{
    state.class == class && !state.stopped && current_priority(code, state) > 0
}

/// The message that a code offers: its first one that no region has. A serial code offers none while
/// a region has a message of it.
fn offered(code: &Code, queues: &Queues) -> Option<u64>
    ensures value { result ≡ offered_in queues.now.queued code.now }
    ensures free { IfSome result (λ id. IsFirstFree queues.now.queued code.now.transaction.code id) }
{
    let transaction = &code.transaction;
    if transaction.serial && queues.has_held(&transaction.code) {
        return None;
    }
    queues.first_free(&transaction.code)
}

/// The code as a candidate of the class, or None where it isn't one.
pub fn candidate_of(class: u8, code: &Code, state: &CodeState, queues: &Queues) -> Option<Candidate>
    ensures value { result ≡ candidate_of (offered_in queues.now.queued) class code.now state.now }
    ensures free { IfSome result (λ c. IsFirstFree queues.now.queued c.code c.id) }
{
    if !is_served(class, code, state) {
        return None;
    }
    match offered(code, queues) {
        Some(id) => Some(Candidate {
            code: code.transaction.code,
            priority: current_priority(code, state),
            id,
        }),
        None => None,
    }
}

/// The one of the two that goes first.
pub fn better(a: Option<Candidate>, b: Option<Candidate>) -> Option<Candidate>
    ensures { result ≡ better a b }
{
    let Some(first) = a else {
        return b;
    };
    match b {
        Some(second) => Some(first_of(first, second)),
        None => Some(first),
    }
}

fn first_of(a: Candidate, b: Candidate) -> Candidate
    ensures { result ≡ (if goes_first b a then b else a) }
{
    if b.goes_first(&a) { b } else { a }
}
