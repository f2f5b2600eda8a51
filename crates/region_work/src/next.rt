//! The message that a region goes on with.
ghost use Rattle.std.specs.Prelude.{◌≡◌, ◌+◌, ◌*◌, nat_le, length, slice_get, IfSome};
ghost use Rattle.std.specs.Option.{option_and_then};
ghost use Rattle.model_messages.specs.Queue.{first_free};
ghost use Rattle.model_messages.specs.Room.{slot_room};
ghost use Rattle.model_system.specs.Codes.{code_at, code_place};
ghost use Rattle.model_machine.specs.MachineCalls.{may_go_on};
ghost use Rattle.lasting_state.specs.Tables.{tables_content};
ghost use Rattle.tran_pick.specs.RegionPick.{IsFirstFree};
ghost use Rattle.region_work.specs.WorkEnds.{goes_on_with};

use lasting_state::Tables;
use model_system::{CodeState, Transaction};
use msg_queues::{Queues, SLOT_ROOM};
use system_types::{Codes, System};
use tm_types::Name;

/// Whether a region that has taken so many messages of a code may take another.
fn may_go_on(transaction: &Transaction, state: &CodeState, taken: u64) -> bool
    ensures { result ≡ may_go_on transaction.now state.now taken }
{
    !state.stopped
        && (transaction.processing_count == 65_535
            || taken < u64::from(transaction.processing_count))
}

/// Whether the queues have room for so many regions at work.
fn has_room(tables: &Tables, limit: u32, busy: u32) -> bool
    ensures { result ≡ nat_le (tables_content tables.now + slot_room * busy) limit }
{
    tables.content() + SLOT_ROOM * u64::from(busy) <= u64::from(limit)
}

/// The code's first message that no region has.
fn first_free(queues: &Queues, code: &Name) -> Option<u64>
    ensures value { result ≡ first_free code.now queues.now.queued }
    ensures free { IfSome result (λ id. IsFirstFree queues.now.queued code.now id) }
{
    queues.first_free(code)
}

/// The message that a region goes on with behind a completion; so many regions were busy with it.
#[tactic(auto, using(system_types::proofs::Indexed::found_at))]
pub fn next_message(
    system: &System,
    codes: &Codes,
    tables: &Tables,
    code: &Name,
    taken: u64,
    busy: u32,
) -> Option<u64>
    requires { length codes.now ≡ length system.now.codes }
    ensures value { result ≡ goes_on_with system.now.qbytes tables.now code.now taken busy (code_at system.now.codes code.now) (option_and_then (slice_get codes.now) (code_place system.now.codes code.now)) }
    ensures free { IfSome result (λ id. IsFirstFree tables.now.queues.queued code.now id) }
{
    let Some(place) = system.code_place(code) else {
        return None;
    };
    let transaction = &system.codes()[place].transaction;
    if !may_go_on(transaction, &codes.states()[place], taken) {
        return None;
    }
    if !has_room(tables, system.qbytes(), busy) {
        return None;
    }
    first_free(tables.queues(), code)
}
