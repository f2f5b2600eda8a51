//! Replies that are removed.
ghost use Rattle.std.specs.Prelude.{◌≡◌, length};
ghost use Rattle.std.specs.Option.{option_map, option_map_or};
ghost use Rattle.model_messages.specs.Outputs.{replies_at, reply_at, with_terminal, without_first};
ghost use Rattle.model_machine.specs.LastingSteps.{without_replies};

use out_queues::Outputs;
use tm_types::Name;

/// Removes the first reply of the terminal of this name, if it has one.
#[tactic(auto, using(crate::proofs::Dequeued::first_changes))]
pub fn dequeue_first(outputs: &mut Outputs, name: &Name)
    ensures { outputs.new ≡ with_terminal name.now without_first outputs.old }
{
    let Some(number) = first_number(outputs, name) else {
        return;
    };
    let _acked = outputs.acknowledge(name, number);
}

/// The number of the first reply of the terminal of this name, if it has one.
fn first_number(outputs: &Outputs, name: &Name) -> Option<u64>
    ensures { result ≡ option_map (λ reply. reply.number) (reply_at name.now 0 outputs.now) }
{
    let Some(kept) = outputs.terminal(name) else {
        return None;
    };
    match kept.replies.items.front() {
        Some(reply) => Some(reply.number),
        None => None,
    }
}

/// Removes all replies of the terminal of this name.
pub fn dequeue_all(outputs: &mut Outputs, name: &Name)
    ensures { outputs.new ≡ with_terminal name.now without_replies outputs.old }
{
    for removed in 0..kept(outputs, name) {
        dequeue_first(outputs, name);
    }
}

/// How many replies the terminal of this name has.
fn kept(outputs: &Outputs, name: &Name) -> usize
    ensures { result ≡ option_map_or (λ t. length t.replies) (replies_at name.now outputs.now) 0 }
{
    match outputs.terminal(name) {
        Some(kept) => kept.replies.items.len(),
        None => 0,
    }
}
