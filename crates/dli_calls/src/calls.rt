//! Database calls.
ghost use Rattle.std.specs.Prelude.{◌≡◌, ◌≤◌, ℕ, Bool, length, IfOk, IfErr, IfSome, OnOk, OnErr, None, ◌&&◌, ◌||◌};
ghost use Rattle.std.specs.Option.{option_map};
ghost use Rattle.tm_types.specs.declared.status.Status.TheVariants.{AM};
ghost use Rattle.model_data.specs.Rows.{IsImage};
ghost use Rattle.model_data.specs.Conditions.{IsDbCall, IsPosition};
ghost use Rattle.model_data.specs.DatabaseCalls.{dli, allowed, has_option, is_call_allowed, position_denied};
ghost use Rattle.seg_rows.specs.RowsRefused.{RefusesToRead};
ghost use Rattle.dli_calls.specs.PerformedCall.{PerformsOn, RefusesCall};
ghost use Rattle.dli_calls.specs.ChangeEdit.{rows_set, edit_limit};
ghost use Rattle.dli_calls.specs.OwnRecord.{LooksAtOne};

use crate::get::failed;
use crate::needed::plan_needed;
use crate::own_record::{own_root, would_change_own};
use crate::planned::{Edit, Planned, answer_at};
use model_data::{DbCall, Performed, Position, Reach};
use seg_rows::{Rows, RowsRefused};
use std::alloc::Global;
use tm_types::processing::{DELETE, GET, INSERT, REPLACE};
use tm_types::{Dbd, Function, Key, Memory, Status};

/// Makes a call on the rows of a database, by a PCB that stands at `position`.
///
/// It answers a status, and the data of the segment that a get reached; where it changed a record,
/// also that record's root. A call that the PCB's options don't allow answers AM, before all else.
/// All this is told of the rows as they were read, and what it changes it changes in these.
///
/// A refusal leaves the rows as they were read, and the position. It is `RootLimit` where an ISRT would
/// add one root more than the database may have, else `RecordTooLong` where the record would be too
/// long; that of a record that the call looks at, `Disk`, only where a device failed, or `Damaged`,
/// never where what is kept elsewhere is told as it was written; `Memory` may come in any call.
pub fn perform<R: Rows>(
    alloc: Global,
    dbd: &Dbd,
    call: &DbCall,
    position: &mut Position,
    rows: &mut R,
) -> Result<Performed, RowsRefused>
    requires types { length dbd.now.types ≤ 255 }
    requires rows { R.database rows.old ≡ dbd.now }
    requires call { IsDbCall dbd.now.types call.now }
    requires position { IsPosition dbd.now.types position.old }
    ensures performed { IfOk result (PerformsOn dbd.now call.now position.old (R.tells rows.old) (R.rows rows.old) (R.rows rows.new) position.new) }
    // A call is refused exactly by the limit that it would pass, by the record that isn't read, or for want of memory.
    ensures refused { IfErr result (RefusesCall (dli dbd.now call.now position.old (R.rows rows.new)).refusal (R.tells rows.old) (R.faults rows.old) (R.faults rows.new)) }
    ensures kept_rows { OnErr result (R.reads rows.old rows.new) }
    ensures kept_position { OnErr result (position.new ≡ position.old) }
    ensures database { R.database rows.new ≡ R.database rows.old }
    ensures tells { R.tells rows.new ≡ R.tells rows.old }
    ensures faults { R.faults rows.old ≤ R.faults rows.new }
    ensures valid { IsPosition dbd.now.types position.new }
{
    let needed = plan_needed(alloc, dbd, call, position, rows)?;
    let planned = needed.planned;
    let changed = set_edit(planned.edit, rows)?;
    *position = planned.position;
    Ok(Performed {
        status: planned.status,
        area: planned.area,
        changed,
    })
}

// Sets the record of a plan, if it has one, and answers its root.
fn set_edit<R: Rows>(edit: Option<Edit>, rows: &mut R) -> Result<Option<Key>, RowsRefused>
    requires { IfSome edit (λ e. IsImage (R.database rows.old) e.root e.image) }
    ensures changed { IfOk result (λ root. root ≡ option_map (λ e. e.root) edit) }
    ensures rows { OnOk result (R.rows rows.new ≡ rows_set edit (R.rows rows.old)) }
    ensures accepted { OnOk result (edit_limit (R.database rows.old) edit (R.rows rows.old) ≡ None) }
    ensures refused { (told : Bool) → (before now : ℕ) → IfErr result (RefusesCall (edit_limit (R.database rows.old) edit (R.rows rows.old)) told before now) }
    ensures kept { OnErr result (rows.new ≡ rows.old) }
    ensures database { R.database rows.new ≡ R.database rows.old }
    ensures tells { R.tells rows.new ≡ R.tells rows.old }
    ensures faults { R.faults rows.new ≡ R.faults rows.old }
{
    let Some(edit) = edit else {
        return Ok(None);
    };
    let root = edit.root;
    match rows.set(&root, edit.image) {
        Ok(()) => Ok(Some(root)),
        Err(refusal) => Err(refusal),
    }
}

/// The root of the record that [`perform`] would then change, or refuse to change by
/// [`RowsRefused::RootLimit`] or [`RowsRefused::RecordTooLong`]; None where it would do neither. It is
/// told of the rows as they were read.
///
/// A refusal is that of a record that the call looks at: `Disk`, only where a device failed, `Damaged`,
/// never where what is kept elsewhere is told as it was written, or `Memory`.
pub fn would_change<R: Rows>(
    dbd: &Dbd,
    call: &DbCall,
    position: &Position,
    rows: &mut R,
) -> Result<Option<Key>, RowsRefused>
    requires types { length dbd.now.types ≤ 255 }
    requires rows { R.database rows.old ≡ dbd.now }
    requires call { IsDbCall dbd.now.types call.now }
    requires position { IsPosition dbd.now.types position.now }
    ensures changed { IfOk result (λ root. root ≡ (dli dbd.now call.now position.now (R.rows rows.new)).changed) }
    ensures read { R.reads rows.old rows.new }
    ensures refused { IfErr result (RefusesToRead (R.tells rows.old) (R.faults rows.old) (R.faults rows.new)) }
{
    if !is_allowed(call.function, call.options) {
        return Ok(None);
    }
    match call.function {
        Function::GU | Function::GN | Function::GNP => Ok(None),
        Function::GHU | Function::GHN | Function::GHNP => Ok(None),
        Function::ISRT | Function::REPL => change_alone(dbd, call, position, rows),
        Function::DLET => change_alone(dbd, call, position, rows),
        Function::PURG | Function::CHNG | Function::ROLB | Function::ROLL => unreachable!(),
    }
}

// The same of an allowed call that looks at one record alone.
fn change_alone<R: Rows>(
    dbd: &Dbd,
    call: &DbCall,
    at: &Position,
    rows: &mut R,
) -> Result<Option<Key>, RowsRefused>
    requires types { length dbd.now.types ≤ 255 }
    requires one { LooksAtOne call.now.function }
    requires rows { R.database rows.old ≡ dbd.now }
    requires call { IsDbCall dbd.now.types call.now }
    requires position { IsPosition dbd.now.types at.now }
    ensures changed { IfOk result (λ root. root ≡ (allowed call.now.function dbd.now call.now at.now (R.rows rows.new)).changed) }
    ensures read { R.reads rows.old rows.new }
    ensures refused { IfErr result (RefusesToRead (R.tells rows.old) (R.faults rows.old) (R.faults rows.new)) }
{
    let Some(root) = own_root(dbd, call, at) else {
        return Ok(would_change_own(dbd, call, at, &[]));
    };
    match rows.record(&root)? {
        Some(image) => Ok(would_change_own(dbd, call, at, image.as_slice())),
        None => Ok(would_change_own(dbd, call, at, &[])),
    }
}

/// A call that isn't allowed.
pub fn denied(function: Function, at: &Position) -> Result<Planned, Memory>
    ensures { IfOk result (λ p. p ≡ record { status = AM; area = None; position = position_denied function at.now; edit = None }) }
{
    let position = match function {
        Function::GU => failed(Reach::Start, at),
        Function::GHU => failed(Reach::Start, at),
        Function::GN => failed(Reach::Next, at),
        Function::GHN => failed(Reach::Next, at),
        _ => failed(Reach::Parent, at),
    }?;
    Ok(answer_at(Status::AM, position))
}

/// Whether the options of a PCB allow a call.
pub fn is_allowed(function: Function, options: u8) -> bool
    ensures { result ≡ is_call_allowed function options }
{
    match function {
        Function::GU | Function::GN | Function::GNP => has(options, GET),
        Function::GHU | Function::GHN | Function::GHNP => may_hold(options),
        Function::ISRT => has(options, INSERT),
        Function::REPL => has(options, REPLACE),
        Function::DLET => has(options, DELETE),
        Function::PURG | Function::CHNG | Function::ROLB | Function::ROLL => false,
    }
}

fn may_hold(options: u8) -> bool
    ensures { result ≡ (has_option options 1 && (has_option options 4 || has_option options 8)) }
{
    has(options, GET) && (has(options, REPLACE) || has(options, DELETE))
}

fn has(options: u8, option: u8) -> bool
    ensures { result ≡ has_option options option }
{
    options & option != 0
}
