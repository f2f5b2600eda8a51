//! Which priorities count.
ghost use Rattle.std.specs.Prelude.{◌≡◌, ◌<◌, length, slice_get};
ghost use Rattle.model_messages.specs.Queue.{free_count};
ghost use Rattle.model_machine.specs.Machine.{raised_by};
ghost use Rattle.model_machine.specs.Flags.{followed, followed_by, all_followed};

use model_system::Transaction;
use msg_queues::Queues;
use system_types::{Codes, System};
use tm_types::Name;

/// Whether the limit priority counts, with so many messages waiting.
fn raised_by(transaction: &Transaction, waiting: u64, raised: bool) -> bool
    ensures { result ≡ raised_by transaction.now waiting raised }
{
    if waiting == 0 {
        false
    } else if transaction.limit_count != 65_535 && u64::from(transaction.limit_count) <= waiting {
        true
    } else {
        raised
    }
}

/// Makes the flag of a code follow how many of its messages wait.
pub fn follow(codes: &mut Codes, system: &System, name: &Name, waiting: u64)
    requires { length codes.old ≡ length system.now.codes }
    ensures { codes.new ≡ followed system.now.codes name.now waiting codes.old }
{
    if let Some(place) = system.code_place(name) {
        follow_at(codes, system, place, waiting);
    }
}

/// The same for the code at this place.
pub fn follow_at(codes: &mut Codes, system: &System, place: usize, waiting: u64)
    requires count { length codes.old ≡ length system.now.codes }
    requires within { place < length system.now.codes }
    ensures { codes.new ≡ followed_by waiting (slice_get system.now.codes place) codes.old place }
{
    let raised = raised_by(
        &system.codes()[place].transaction,
        waiting,
        codes.states()[place].raised,
    );
    codes.set_raised(place, raised);
}

/// Makes the flags of these codes follow how many of their messages wait in the queues.
#[tactic(auto, using(model_machine::proofs::Flags::followed_length))]
pub fn follow_all(codes: &mut Codes, system: &System, queues: &Queues, names: &[Name])
    requires { length codes.old ≡ length system.now.codes }
    ensures { codes.new ≡ all_followed system.now.codes (λ name. free_count name queues.now.queued) names.now codes.old }
{
    for name in names {
        follow(codes, system, name, queues.waiting(name));
    }
}
