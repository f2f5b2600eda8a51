//! Counters that are spent.
ghost use Rattle.std.specs.Prelude.{◌≡◌, ◌+◌, nat_le};
ghost use Rattle.model_machine.specs.Machine.{LastingState as OneState};
ghost use Rattle.openings.specs.OpenedImage.{counters, output_counters, first_spent};

use model_machine::Counter;
use model_messages::TerminalReplies;
use out_queues::Outputs;

const LIMIT: u64 = 1_000_000_000_000_000_000;

// Whether a counter stands at the limit or above.
fn is_spent(count: u64) -> bool
    ensures { result ≡ nat_le 1000000000000000000 count }
{
    count >= LIMIT
}

// Whether the counter behind this number does, which may have no number any more.
fn is_next_spent(last: u64) -> bool
    ensures { result ≡ nat_le 1000000000000000000 (last + 1) }
{
    last >= LIMIT - 1
}

// The first terminal whose next reply is spent. Terminals are gone over only where one of them may have come to the limit.
fn spent_output(outputs: &Outputs) -> Option<Counter>
    ensures { result ≡ first_spent (output_counters outputs.now) }
{
    if outputs.highest() < LIMIT - 1 {
        return None;
    }
    spent_among(outputs.terminals())
}

fn spent_among(outputs: &[TerminalReplies]) -> Option<Counter>
    ensures { result ≡ first_spent (output_counters outputs.now) }
{
    for terminal in outputs {
        if is_spent(terminal.next) {
            return Some(Counter::NextOutput(terminal.terminal));
        }
    }
    None
}

/// What a life counts on besides its replies.
#[derive(Drop)]
pub struct Counts {
    pub epoch: u64,
    /// The sequence behind the log.
    pub sequence: u64,
    pub checkpoint: u64,
    pub next_id: u64,
    /// The next unit is the one behind it.
    pub last_unit: u64,
    pub steps: u64,
}

/// The first counter that is spent.
pub fn spent_counter(counts: &Counts, outputs: &Outputs) -> Option<Counter>
    ensures { (state : OneState) → state.next_id ≡ counts.now.next_id → state.steps ≡ counts.now.steps → state.outputs ≡ outputs.now → result ≡ first_spent (counters counts.now.epoch counts.now.sequence counts.now.checkpoint (counts.now.last_unit + 1) state) }
{
    if is_spent(counts.epoch) {
        return Some(Counter::Epoch);
    }
    if is_spent(counts.sequence) {
        return Some(Counter::Sequence);
    }
    if is_spent(counts.checkpoint) {
        return Some(Counter::Checkpoint);
    }
    if is_spent(counts.next_id) {
        return Some(Counter::NextId);
    }
    if is_next_spent(counts.last_unit) {
        return Some(Counter::NextUnit);
    }
    if is_spent(counts.steps) {
        return Some(Counter::Steps);
    }
    spent_output(outputs)
}
