//! The records of what a unit sends.
ghost use Rattle.std.specs.Prelude.{◌≡◌, ◌≤◌, ◌++◌, ◌∷◌, [], take, length, count_by, IfOk, OnErr, OnOk};
ghost use Rattle.std.specs.List.{flat_map, AllByRecursion};
ghost use Rattle.log_records.specs.RecordSpelling.{record_spelling, IsCount, IsLogRecord};
ghost use Rattle.lasting_state.specs.OutputRecords.{goes_to, counted_record, counted_records, id_after};
ghost use Rattle.lasting_state.specs.RecordRanges.{HaveCounts};

use log_records::{append_input, append_reply};
use model_messages::EndedMessage;
use out_queues::Outputs;
use std::collections::VecDeque;
use tm_types::{Memory, Name};

fn goes_to(output: &EndedMessage, name: &Name) -> bool
    ensures { result ≡ goes_to name.now output.now }
{
    &output.to == name
}

/// How many outputs before this place go to the name.
#[tactic(auto, using(crate::proofs::Counting::counted_steps))]
fn count_to(outputs: &VecDeque<EndedMessage>, place: usize, name: &Name) -> u64
    requires { place ≤ length outputs.now.items }
    ensures { result ≡ count_by (goes_to name.now) (take place outputs.now.items) }
{
    let mut count: u64 = 0;
    for earlier in 0..place {
        if goes_to(&outputs[earlier], name) {
            count += 1;
        }
    }
    count
}

/// Appends the record of an output, before which so many went to the same name, and answers the next id behind it.
/// `Memory` is answered too where a number would have more than 64 bits.
fn put_output(
    bytes: &mut Vec<u8>,
    unit: u64,
    terminals: &Outputs,
    id: u64,
    origin: &Name,
    output: &EndedMessage,
    earlier: u64,
) -> Result<u64, Memory>
    requires { IsCount output.now.segments }
    ensures ok { OnOk result (bytes.new.items ≡ bytes.old.items ++ record_spelling (counted_record unit origin.now earlier output.now terminals.now id)) }
    ensures valid { OnOk result (IsLogRecord (counted_record unit origin.now earlier output.now terminals.now id)) }
    ensures next { IfOk result (λ next. next ≡ id_after output.now terminals.now id) }
    ensures unwritten { OnErr result (bytes.new.items ≡ bytes.old.items) }
{
    if terminals.has_terminal(&output.to) {
        let Some(number) = terminals.next(&output.to).checked_add(earlier) else {
            return Err(Memory);
        };
        append_reply(bytes, unit, &output.to, number, &output.segments)?;
        return Ok(id);
    }
    let Some(next) = id.checked_add(1) else {
        return Err(Memory);
    };
    append_input(
        bytes,
        unit,
        id,
        origin,
        &output.to,
        0,
        false,
        &output.segments,
    )?;
    Ok(next)
}

/// Appends the records of the outputs of a unit, in their order. `Memory` is answered too where a number would have more
/// than 64 bits; what stood there before still stands at the front then.
pub fn put_outputs(
    bytes: &mut Vec<u8>,
    unit: u64,
    terminals: &Outputs,
    next_id: u64,
    origin: &Name,
    outputs: &VecDeque<EndedMessage>,
) -> Result<(), Memory>
    requires { HaveCounts outputs.now.items }
    ensures ok { OnOk result (bytes.new.items ≡ bytes.old.items ++ flat_map record_spelling (counted_records unit origin.now [] outputs.now.items terminals.now next_id)) }
    ensures valid { OnOk result (AllByRecursion IsLogRecord (counted_records unit origin.now [] outputs.now.items terminals.now next_id)) }
    ensures kept { OnErr result (take (length bytes.old.items) bytes.new.items ≡ bytes.old.items) }
{
    let mut id = next_id;
    for place in 0..outputs.len() {
        let output = &outputs[place];
        let earlier = count_to(outputs, place, &output.to);
        id = put_output(bytes, unit, terminals, id, origin, output, earlier)?;
    }
    Ok(())
}
