//! A call of the machine whose records are told behind what was appended to the log.
ghost use Rattle.std.specs.Prelude.{◌≡◌, ◌<◌, ◌≤◌, length, IfErr, IfOk, OnErr, OnOk};
ghost use Rattle.model_machine.specs.History.{IsCall};
ghost use Rattle.lasting_state.specs.UntoldSteps.{WhereFull};
ghost use Rattle.tm_machine.specs.SlotChanges.{HasSlots};
ghost use Rattle.logged_machine.specs.ToldCalls.{DoesCall, own_bytes, own_records};
ghost use Rattle.logged_machine.specs.RecordsBehindLog.{Appends, HasRoomInArea};

use crate::bytes::see_bytes;
use crate::call::Call;
use journal::Journal;
use log_records::Untold;
use program_rows::Telling;
use std::alloc::Global;
use tm_machine::Parts;

/// Lets the machine do a call. Its records are appended to the log, where they are no longer than the room; a refusal changes
/// nothing, and is `Full` only where they are longer.
pub fn tell<C: Call>(
    alloc: Global,
    parts: &mut Parts,
    journal: &mut Journal,
    units: &[u64],
    call: &C,
    room: usize,
) -> Result<C::Answer, Untold>
    requires call { IsCall parts.old.system (C.call call.now) }
    requires room { HasRoomInArea room journal.old.log }
    ensures does { IfOk result (λ answer. DoesCall units.now (C.entry call.now answer) parts.old parts.new) }
    ensures told { OnOk result (Appends (own_records parts.old units.now (C.call call.now)) journal.old journal.new) }
    ensures fits { OnOk result (length (own_bytes parts.old units.now (C.call call.now)) ≤ room) }
    ensures full { IfErr result (WhereFull (room < length (own_bytes parts.old units.now (C.call call.now)))) }
    ensures before { HasSlots parts.old }
    ensures behind { OnOk result (HasSlots parts.new) }
    ensures err { OnErr result (parts.new ≡ parts.old) }
    ensures same { OnErr result (journal.new ≡ journal.old) }
{
    let _before = parts.stores();
    let mut told = Vec::new(alloc);
    journal.exchange(&mut told);
    let mut telling = Telling {
        unit: 0,
        room,
        told,
    };
    let answer = call.tell(alloc, parts, units, &mut telling);
    see_bytes(telling.told.as_slice());
    journal.exchange(&mut telling.told);
    let _behind = parts.stores();
    answer
}
