//! Records, spelled from borrowed parts.
ghost use Rattle.std.specs.Prelude.{◌≡◌, ◌<◌, ◌≤◌, ◌^◌, ◌+◌, ◌-◌, ◌++◌, length, take, drop, OnOk, OnErr};
ghost use Rattle.log_records.specs.declared.record.Record.TheVariants.{Input, Command, Reply, Discarded, Completed, Acknowledged, SyncPoint, Checkpoint, Terminal, Code, Change};
ghost use Rattle.log_records.specs.RecordSpelling.{number2, record_spelling, IsCount, IsAbend, IsPadChange, HasRoomForPad, IsShort, IsLogRecord};
ghost use Rattle.model_data.specs.Record.{rows_spelling as rows_spelling};

use crate::encoding::{
    put_acknowledged, put_checkpoint, put_code, put_command, put_completed, put_discarded,
    put_input, put_reply, put_sync_point, put_terminal,
};
use crate::images::put_row_change;
use model_data::Row;
use model_messages::{Conversation, PadChange};
use tm_types::{AbendCode, Memory, Name, Segments};

// The record that begins at `start` gets its length, for which it has two bytes; where there was no memory to write it
// whole, what was written of it goes.
#[tactic(auto, unfolding(crate::specs::RecordSpelling::number2))]
fn end_record(out: &mut Vec<u8>, start: usize, written: Result<(), Memory>) -> Result<(), Memory>
    requires room { OnOk written (start + 2 ≤ length out.old.items) }
    requires short { OnOk written (length out.old.items - start < 2 ^ 16) }
    ensures same { result ≡ written }
    ensures whole { OnOk written (out.new.items ≡ take start out.old.items ++ number2 (length out.old.items - start) ++ drop (start + 2) out.old.items) }
    ensures gone { OnErr written (out.new.items ≡ take start out.old.items) }
{
    if written.is_ok() {
        let length = (out.len() - start) as u16;
        out[start..start + 2].copy_from_slice(&length.to_be_bytes());
    } else {
        out.truncate(start);
    }
    written
}

/// Appends the spelling of an input as it is kept, with its number, where the unit is 0; else of a message that the unit
/// switched, with the number 0. A message has 1 to 32 segments. After `Memory` nothing of it is.
pub fn append_input(
    out: &mut Vec<u8>,
    unit: u64,
    id: u64,
    origin: &Name,
    code: &Name,
    number: u64,
    conversation: bool,
    segments: &Segments,
) -> Result<(), Memory>
    requires { IsCount segments.now }
    ensures ok { OnOk result (out.new.items ≡ out.old.items ++ record_spelling (Input unit id origin.now code.now number conversation segments.now)) }
    ensures valid { OnOk result (IsLogRecord (Input unit id origin.now code.now number conversation segments.now)) }
    ensures unwritten { OnErr result (out.new.items ≡ out.old.items) }
{
    let start = out.len();
    out.extend_from_slice(&[0, 0])?;
    let written = put_input(out, unit, id, origin, code, number, conversation, segments);
    end_record(out, start, written)
}

/// Appends the spelling of a command that lasts, whose text has at most 80 bytes. After `Memory` nothing of it is.
pub fn append_command(out: &mut Vec<u8>, text: &[u8]) -> Result<(), Memory>
    requires { length text.now ≤ 80 }
    ensures ok { OnOk result (out.new.items ≡ out.old.items ++ record_spelling (Command text.now)) }
    ensures valid { OnOk result (IsLogRecord (Command text.now)) }
    ensures unwritten { OnErr result (out.new.items ≡ out.old.items) }
{
    let start = out.len();
    out.extend_from_slice(&[0, 0])?;
    let written = put_command(out, text);
    end_record(out, start, written)
}

/// Appends the spelling of a reply, which has 1 to 32 segments. After `Memory` nothing of it is.
pub fn append_reply(
    out: &mut Vec<u8>,
    unit: u64,
    terminal: &Name,
    number: u64,
    segments: &Segments,
) -> Result<(), Memory>
    requires { IsCount segments.now }
    ensures ok { OnOk result (out.new.items ≡ out.old.items ++ record_spelling (Reply unit terminal.now number segments.now)) }
    ensures valid { OnOk result (IsLogRecord (Reply unit terminal.now number segments.now)) }
    ensures unwritten { OnErr result (out.new.items ≡ out.old.items) }
{
    let start = out.len();
    out.extend_from_slice(&[0, 0])?;
    let written = put_reply(out, unit, terminal, number, segments);
    end_record(out, start, written)
}

/// Appends the spelling of a message's discarding after an abend from 1 to 4095, with the number of the reply that tells its
/// origin so. After `Memory` nothing of it is.
pub fn append_discarded(
    out: &mut Vec<u8>,
    unit: u64,
    id: u64,
    abend: AbendCode,
    number: u64,
) -> Result<(), Memory>
    requires { IsAbend abend.number }
    ensures ok { OnOk result (out.new.items ≡ out.old.items ++ record_spelling (Discarded unit id abend number)) }
    ensures valid { OnOk result (IsLogRecord (Discarded unit id abend number)) }
    ensures unwritten { OnErr result (out.new.items ≡ out.old.items) }
{
    let start = out.len();
    out.extend_from_slice(&[0, 0])?;
    let written = put_discarded(out, unit, id, abend, number);
    end_record(out, start, written)
}

/// Appends the spelling of a message's completion. After `Memory` nothing of it is.
pub fn append_completed(out: &mut Vec<u8>, unit: u64, id: u64) -> Result<(), Memory>
    ensures ok { OnOk result (out.new.items ≡ out.old.items ++ record_spelling (Completed unit id)) }
    ensures valid { OnOk result (IsLogRecord (Completed unit id)) }
    ensures unwritten { OnErr result (out.new.items ≡ out.old.items) }
{
    let start = out.len();
    out.extend_from_slice(&[0, 0])?;
    let written = put_completed(out, unit, id);
    end_record(out, start, written)
}

/// Appends the spelling of a reply's acknowledgement. After `Memory` nothing of it is.
pub fn append_acknowledged(out: &mut Vec<u8>, terminal: &Name, number: u64) -> Result<(), Memory>
    ensures ok { OnOk result (out.new.items ≡ out.old.items ++ record_spelling (Acknowledged terminal.now number)) }
    ensures valid { OnOk result (IsLogRecord (Acknowledged terminal.now number)) }
    ensures unwritten { OnErr result (out.new.items ≡ out.old.items) }
{
    let start = out.len();
    out.extend_from_slice(&[0, 0])?;
    let written = put_acknowledged(out, terminal, number);
    end_record(out, start, written)
}

/// Appends the spelling of a sync point. A pad is so short that the record has at most 65,535 bytes. After `Memory`
/// nothing of it is.
pub fn append_sync_point(out: &mut Vec<u8>, unit: u64, pad: &PadChange) -> Result<(), Memory>
    requires pad { IsPadChange pad.now }
    requires short { IsShort (SyncPoint unit pad.now) }
    ensures ok { OnOk result (out.new.items ≡ out.old.items ++ record_spelling (SyncPoint unit pad.now)) }
    ensures valid { OnOk result (IsLogRecord (SyncPoint unit pad.now)) }
    ensures unwritten { OnErr result (out.new.items ≡ out.old.items) }
{
    let start = out.len();
    out.extend_from_slice(&[0, 0])?;
    let written = put_sync_point(out, unit, pad);
    end_record(out, start, written)
}

/// Appends the spelling of what a snapshot counts. After `Memory` nothing of it is.
pub fn append_checkpoint(
    out: &mut Vec<u8>,
    checkpoint: u64,
    next_id: u64,
    next_unit: u64,
    lasting_steps: u64,
) -> Result<(), Memory>
    ensures ok { OnOk result (out.new.items ≡ out.old.items ++ record_spelling (Checkpoint checkpoint next_id next_unit lasting_steps)) }
    ensures valid { OnOk result (IsLogRecord (Checkpoint checkpoint next_id next_unit lasting_steps)) }
    ensures unwritten { OnErr result (out.new.items ≡ out.old.items) }
{
    let start = out.len();
    out.extend_from_slice(&[0, 0])?;
    let written = put_checkpoint(out, checkpoint, next_id, next_unit, lasting_steps);
    end_record(out, start, written)
}

/// Appends the spelling of a terminal of a snapshot. A pad has at most 65,000 bytes. After `Memory` nothing of it
/// is.
pub fn append_terminal(
    out: &mut Vec<u8>,
    terminal: &Name,
    last_input: u64,
    next_output: u64,
    stopped: bool,
    conversation: &Option<Conversation>,
) -> Result<(), Memory>
    requires pad { HasRoomForPad conversation.now }
    ensures ok { OnOk result (out.new.items ≡ out.old.items ++ record_spelling (Terminal terminal.now last_input next_output stopped conversation.now)) }
    ensures valid { OnOk result (IsLogRecord (Terminal terminal.now last_input next_output stopped conversation.now)) }
    ensures unwritten { OnErr result (out.new.items ≡ out.old.items) }
{
    let start = out.len();
    out.extend_from_slice(&[0, 0])?;
    let written = put_terminal(
        out,
        terminal,
        last_input,
        next_output,
        stopped,
        conversation,
    );
    end_record(out, start, written)
}

/// Appends the spelling of a transaction code of a snapshot. After `Memory` nothing of it is.
pub fn append_code(
    out: &mut Vec<u8>,
    code: &Name,
    stopped: bool,
    class: u8,
    priority: u8,
) -> Result<(), Memory>
    ensures ok { OnOk result (out.new.items ≡ out.old.items ++ record_spelling (Code code.now stopped class priority)) }
    ensures valid { OnOk result (IsLogRecord (Code code.now stopped class priority)) }
    ensures unwritten { OnErr result (out.new.items ≡ out.old.items) }
{
    let start = out.len();
    out.extend_from_slice(&[0, 0])?;
    let written = put_code(out, code, stopped, class, priority);
    end_record(out, start, written)
}

/// Appends the spelling of a slot's change, with the rows of the record in it before and after. Each image has at most 32,000
/// bytes; one without rows is no record. After `Memory` nothing of it is.
pub fn append_change(
    out: &mut Vec<u8>,
    unit: u64,
    database: u8,
    slot: u16,
    before: &[Row],
    after: &[Row],
) -> Result<(), Memory>
    requires before { length (rows_spelling before.now) ≤ 32000 }
    requires after { length (rows_spelling after.now) ≤ 32000 }
    ensures ok { OnOk result (out.new.items ≡ out.old.items ++ record_spelling (Change unit database slot (rows_spelling before.now) (rows_spelling after.now))) }
    ensures valid { OnOk result (IsLogRecord (Change unit database slot (rows_spelling before.now) (rows_spelling after.now))) }
    ensures unwritten { OnErr result (out.new.items ≡ out.old.items) }
{
    let start = out.len();
    out.extend_from_slice(&[0, 0])?;
    let written = put_row_change(out, unit, database, slot, before, after);
    end_record(out, start, written)
}
