//! A call's plan, with what it needs.
ghost use Rattle.std.specs.Prelude.{◌≡◌, ◌≤◌, List, length, All, IfOk, IfErr, IfSome, None};
ghost use Rattle.std.specs.Option.{option_copied};
ghost use Rattle.tm_types.specs.Segment.{IsSegmentText};
ghost use Rattle.model_data.specs.declared.row.Row.{Row};
ghost use Rattle.model_data.specs.Path.{IsPath};
ghost use Rattle.model_data.specs.Conditions.{IsDbCall, IsPosition};
ghost use Rattle.model_data.specs.DatabaseCalls.{dli, get, allowed};
ghost use Rattle.model_data.specs.Footprint.{footprint, allowed_needs, search_needs};
ghost use Rattle.model_data.specs.GetCalls.{row_reached};
ghost use Rattle.model_data.specs.Search.{first_after};
ghost use Rattle.seg_rows.specs.RowsRefused.{RefusesToRead};
ghost use Rattle.dli_calls.specs.NamedRecords.{mode_of};
ghost use Rattle.dli_calls.specs.CallPlan.{IsThere, Plans};
ghost use Rattle.dli_calls.specs.OwnRecord.{GoesAlong, LooksAtOne};

use crate::calls::{denied, is_allowed};
use crate::footprint::{needed_row, own_needs};
use crate::get::get_found;
use crate::need_list::Needs;
use crate::own_record::{own_root, plan_own};
use crate::planned::Planned;
use model_data::{DbCall, Path, Position, Reach};
use seg_rows::{Rows, RowsRefused};
use std::alloc::Global;
use tm_types::{Dbd, Function, Memory, Mode};

/// What a call comes to, and what it needs before that is made.
#[derive(Debug, Drop)]
pub struct NeededPlan {
    pub needs: Needs,
    pub planned: Planned,
}

/// What a call comes to on the rows of a database, by a PCB that stands at `at`, and what it needs before
/// it is made. Both are told of the rows as they were read. This changes nothing.
///
/// The plan has the call's answer, and where the call changes a record, the record that is to be set.
/// A call that the PCB's options don't allow answers AM, before all else. It tells what [`crate::needs`]
/// tells, and a search goes along the rows once for both.
///
/// A refusal is `Memory`, or that of a record that the call looks at: `Disk`, only where a device failed,
/// or `Damaged`, never where what is kept elsewhere is told as it was written.
pub fn plan_needed<R: Rows>(
    alloc: Global,
    dbd: &Dbd,
    call: &DbCall,
    at: &Position,
    rows: &mut R,
) -> Result<NeededPlan, RowsRefused>
    requires types { length dbd.now.types ≤ 255 }
    requires rows { R.database rows.old ≡ dbd.now }
    requires call { IsDbCall dbd.now.types call.now }
    requires position { IsPosition dbd.now.types at.now }
    ensures needs { IfOk result (λ p. p.needs ≡ footprint dbd.now call.now at.now (R.rows rows.new)) }
    ensures planned { IfOk result (λ p. Plans dbd.now (R.rows rows.new) (dli dbd.now call.now at.now (R.rows rows.new)) p.planned) }
    ensures position { IfOk result (λ p. IsPosition dbd.now.types p.planned.position) }
    ensures text { All (λ type. type.bytes ≤ 1996) dbd.now.types → IfOk result (λ p. IfSome p.planned.area IsSegmentText) }
    ensures there { IfOk result (λ p. IsThere (R.rows rows.new) p.planned.edit) }
    ensures read { R.reads rows.old rows.new }
    ensures refused { IfErr result (RefusesToRead (R.tells rows.old) (R.faults rows.old) (R.faults rows.new)) }
{
    if !is_allowed(call.function, call.options) {
        return Ok(NeededPlan {
            needs: Needs::new(alloc),
            planned: denied(call.function, at)?,
        });
    }
    let place = at.position.as_ref();
    match call.function {
        Function::GU => search(alloc, Reach::Start, false, dbd, call, at, None, rows),
        Function::GN => search(alloc, Reach::Next, false, dbd, call, at, place, rows),
        Function::GHU => search(alloc, Reach::Start, true, dbd, call, at, None, rows),
        Function::GHN => search(alloc, Reach::Next, true, dbd, call, at, place, rows),
        Function::GNP | Function::GHNP => alone(alloc, dbd, call, at, rows),
        Function::ISRT | Function::REPL => alone(alloc, dbd, call, at, rows),
        Function::DLET => alone(alloc, dbd, call, at, rows),
        Function::PURG | Function::CHNG | Function::ROLB | Function::ROLL => unreachable!(),
    }
}

/// An allowed call that looks at one record alone.
fn alone<R: Rows>(
    alloc: Global,
    dbd: &Dbd,
    call: &DbCall,
    at: &Position,
    rows: &mut R,
) -> Result<NeededPlan, RowsRefused>
    requires types { length dbd.now.types ≤ 255 }
    requires one { LooksAtOne call.now.function }
    requires rows { R.database rows.old ≡ dbd.now }
    requires call { IsDbCall dbd.now.types call.now }
    requires position { IsPosition dbd.now.types at.now }
    ensures needs { IfOk result (λ p. p.needs ≡ allowed_needs call.now.function dbd.now call.now at.now (R.rows rows.new)) }
    ensures planned { IfOk result (λ p. Plans dbd.now (R.rows rows.new) (allowed call.now.function dbd.now call.now at.now (R.rows rows.new)) p.planned) }
    ensures position { IfOk result (λ p. IsPosition dbd.now.types p.planned.position) }
    ensures text { All (λ type. type.bytes ≤ 1996) dbd.now.types → IfOk result (λ p. IfSome p.planned.area IsSegmentText) }
    ensures there { IfOk result (λ p. IsThere (R.rows rows.new) p.planned.edit) }
    ensures read { R.reads rows.old rows.new }
    ensures refused { IfErr result (RefusesToRead (R.tells rows.old) (R.faults rows.old) (R.faults rows.new)) }
{
    let needs = own_needs(alloc, dbd, call, at)?;
    let planned = plan_alone(alloc, dbd, call, at, rows)?;
    Ok(NeededPlan { needs, planned })
}

fn plan_alone<R: Rows>(
    alloc: Global,
    dbd: &Dbd,
    call: &DbCall,
    at: &Position,
    rows: &mut R,
) -> Result<Planned, RowsRefused>
    requires types { length dbd.now.types ≤ 255 }
    requires one { LooksAtOne call.now.function }
    requires rows { R.database rows.old ≡ dbd.now }
    requires call { IsDbCall dbd.now.types call.now }
    requires position { IsPosition dbd.now.types at.now }
    ensures planned { IfOk result (Plans dbd.now (R.rows rows.new) (allowed call.now.function dbd.now call.now at.now (R.rows rows.new))) }
    ensures position { IfOk result (λ p. IsPosition dbd.now.types p.position) }
    ensures text { All (λ type. type.bytes ≤ 1996) dbd.now.types → IfOk result (λ p. IfSome p.area IsSegmentText) }
    ensures there { IfOk result (λ p. IsThere (R.rows rows.new) p.edit) }
    ensures read { R.reads rows.old rows.new }
    ensures refused { IfErr result (RefusesToRead (R.tells rows.old) (R.faults rows.old) (R.faults rows.new)) }
{
    let Some(root) = own_root(dbd, call, at) else {
        return Ok(plan_own(alloc, dbd, call, at, &[])?);
    };
    match rows.record(&root)? {
        Some(image) => Ok(plan_own(alloc, dbd, call, at, image.as_slice())?),
        None => Ok(plan_own(alloc, dbd, call, at, &[])?),
    }
}

/// GU and GN, and the same with hold, from a place.
fn search<R: Rows>(
    alloc: Global,
    reach: Reach,
    hold: bool,
    dbd: &Dbd,
    call: &DbCall,
    at: &Position,
    place: Option<&Path>,
    rows: &mut R,
) -> Result<NeededPlan, RowsRefused>
    requires types { length dbd.now.types ≤ 255 }
    requires along { GoesAlong reach }
    requires rows { R.database rows.old ≡ dbd.now }
    requires position { IsPosition dbd.now.types at.now }
    requires place { IfSome (option_copied place) (IsPath dbd.now.types) }
    requires reach { (rows : List Row) → first_after dbd.now.types call.now.ssas (option_copied place) rows ≡ row_reached reach dbd.now.types call.now.ssas at.now rows }
    ensures needs { IfOk result (λ p. p.needs ≡ search_needs (mode_of hold) dbd.now call.now (option_copied place.entry) (R.rows rows.new)) }
    ensures planned { IfOk result (λ p. Plans dbd.now (R.rows rows.new) (get reach hold dbd.now call.now at.now (R.rows rows.new)) p.planned) }
    ensures position { IfOk result (λ p. IsPosition dbd.now.types p.planned.position) }
    ensures text { All (λ type. type.bytes ≤ 1996) dbd.now.types → IfOk result (λ p. IfSome p.planned.area IsSegmentText) }
    ensures no_edit { IfOk result (λ p. p.planned.edit ≡ None) }
    ensures read { R.reads rows.old rows.new }
    ensures refused { IfErr result (RefusesToRead (R.tells rows.old) (R.faults rows.old) (R.faults rows.new)) }
{
    let mut needs = Needs::new(alloc);
    let row = needed_row(mode_of(hold), dbd, call, place, rows, &mut needs)?;
    let planned = get_found(reach, hold, dbd, call, at, row.as_ref())?;
    Ok(NeededPlan { needs, planned })
}

/// A get shares what it needs, but with hold has its records alone.
fn mode_of(hold: bool) -> Mode
    ensures { result ≡ mode_of hold }
{
    if hold { Mode::Exclusive } else { Mode::Shared }
}
