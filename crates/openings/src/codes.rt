//! The states of the codes, as a life starts.
ghost use Rattle.std.specs.Prelude.{◌≡◌, ◌++◌, ◌∷◌, [], false, IfOk, OnOk};
ghost use Rattle.model_messages.specs.Queue.{free_count};
ghost use Rattle.model_machine.specs.Machine.{LastingState, raised_by, states_of, start_of};
ghost use Rattle.image_records.specs.KeptState.{kept_of};
ghost use Rattle.openings.specs.OpeningState.{opening_state, opening_states};

use image_records::Kept;
use model_machine::CodeSetting;
use model_system::{Code, CodeState, Transaction};
use msg_queues::Queues;
use std::alloc::Global;
use system_types::{Codes, System};
use tm_types::Memory;

/// The states of the codes that this is kept of. The limit priority counts for those whose waiting messages reach their
/// limit count. `Memory` is the only refusal.
pub fn codes_of(alloc: Global, system: &System, kept: &Kept) -> Result<Codes, Memory>
    ensures { IfOk result (λ codes. (lasting : LastingState) → kept.now ≡ kept_of system.now lasting → codes ≡ states_of (start_of system.now lasting)) }
{
    let states = opening_states(alloc, system.codes(), &kept.codes, &kept.queues)?;
    Ok(Codes::with(states))
}

// The states of these codes, which have these settings.
fn opening_states(
    alloc: Global,
    codes: &[Code],
    settings: &[CodeSetting],
    queues: &Queues,
) -> Result<Vec<CodeState>, Memory>
    ensures { IfOk result (λ states. states.items ≡ opening_states (λ name. free_count name queues.now.queued) codes.now settings.now) }
{
    let mut states = Vec::new(alloc);
    for (code, setting) in codes.iter().zip(settings) {
        add_state(&mut states, code, setting, queues)?;
    }
    Ok(states)
}

fn add_state(
    states: &mut Vec<CodeState>,
    code: &Code,
    setting: &CodeSetting,
    queues: &Queues,
) -> Result<(), Memory>
    ensures { OnOk result (states.new.items ≡ states.old.items ++ opening_state (λ name. free_count name queues.now.queued) code.now setting.now ∷ []) }
{
    states.push(opening_state(code, setting, queues))?;
    Ok(())
}

fn opening_state(code: &Code, setting: &CodeSetting, queues: &Queues) -> CodeState
    ensures { result ≡ opening_state (λ name. free_count name queues.now.queued) code.now setting.now }
{
    CodeState {
        code: setting.code,
        stopped: setting.stopped,
        class: setting.class,
        priority: setting.priority,
        raised: is_reached(&code.transaction, queues.waiting(&code.transaction.code)),
    }
}

// Whether the limit priority counts, with so many messages waiting, where it didn't before.
fn is_reached(transaction: &Transaction, waiting: u64) -> bool
    ensures { result ≡ raised_by transaction.now waiting false }
{
    if waiting == 0 {
        false
    } else {
        transaction.limit_count != 65_535 && u64::from(transaction.limit_count) <= waiting
    }
}
