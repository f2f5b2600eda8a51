//! The calls that look at one record alone: all but GU and GN, with hold or without.
ghost use Rattle.std.specs.Prelude.{◌≡◌, ◌≤◌, List, length, All, IfOk, IfSome, None};
ghost use Rattle.std.specs.Option.{option_copied, option_map, option_map_or};
ghost use Rattle.tm_types.specs.Segment.{IsSegmentText};
ghost use Rattle.model_data.specs.declared.row.Row.{Row};
ghost use Rattle.model_data.specs.Path.{root_of, IsPath};
ghost use Rattle.model_data.specs.Conditions.{IsDbCall, IsPosition};
ghost use Rattle.model_data.specs.DatabaseCalls.{allowed};
ghost use Rattle.dli_calls.specs.CallPlan.{IsThere, Plans};
ghost use Rattle.dli_calls.specs.OwnRecord.{LooksAtOne, replaced_root, own_root, IsRecordFor};

use crate::change::{self, keeps_key, would_delete, would_insert, would_replace};
use crate::get::{copied_path, get_below};
use crate::inserting::insert_root;
use crate::planned::Planned;
use model_data::{DbCall, Path, Position, Row};
use std::alloc::Global;
use tm_types::{Dbd, Function, Key, Memory, SegTypes};

/// The root of the record at which a call looks, if it looks at one: GNP at that of the parentage, ISRT
/// at that of the new segment, REPL and DLET at that of the segment that was got with hold, but REPL at
/// none where the data has another key. This takes no memory.
pub fn own_root(dbd: &Dbd, call: &DbCall, at: &Position) -> Option<Key>
    requires types { length dbd.now.types ≤ 255 }
    requires call { IsDbCall dbd.now.types call.now }
    requires position { IsPosition dbd.now.types at.now }
    ensures { result ≡ own_root call.now.function dbd.now.types call.now at.now }
{
    let area = call.area.as_slice();
    match call.function {
        Function::GNP => path_root(at.parentage.as_ref()),
        Function::GHNP => path_root(at.parentage.as_ref()),
        Function::ISRT => Some(insert_root(&dbd.types, area, call.ssas.as_slice())),
        Function::REPL => replaced_root(&dbd.types, area, at.hold.as_ref()),
        Function::DLET => path_root(at.hold.as_ref()),
        Function::GU | Function::GN | Function::GHU | Function::GHN => None,
        Function::PURG | Function::CHNG | Function::ROLB | Function::ROLL => None,
    }
}

fn path_root(path: Option<&Path>) -> Option<Key>
    requires { IfSome (option_copied path) (λ p. 1 ≤ length p) }
    ensures { result ≡ option_map root_of (option_copied path.entry) }
{
    path?.root()
}

fn replaced_root(types: &SegTypes, area: &[u8], held: Option<&Path>) -> Option<Key>
    requires { IfSome (option_copied held) (IsPath types.now) }
    ensures { result ≡ option_map_or (replaced_root types.now area.now) (option_copied held.entry) None }
{
    let held = held?;
    if keeps_key(types, held, area) {
        held.root()
    } else {
        None
    }
}

/// What an allowed call comes to that looks at one record alone, of which these are the rows: none where
/// there is no such record, or where it looks at none.
///
/// It is what the call comes to on any rows of the database that have this record.
pub fn plan_own(
    alloc: Global,
    dbd: &Dbd,
    call: &DbCall,
    at: &Position,
    seen: &[Row],
) -> Result<Planned, Memory>
    requires types { length dbd.now.types ≤ 255 }
    requires one { LooksAtOne call.now.function }
    requires call { IsDbCall dbd.now.types call.now }
    requires position { IsPosition dbd.now.types at.now }
    ensures planned { (rows : List Row) → IsRecordFor dbd.now (own_root call.now.function dbd.now.types call.now at.now) seen.now rows → IfOk result (Plans dbd.now rows (allowed call.now.function dbd.now call.now at.now rows)) }
    ensures position { (rows : List Row) → IsRecordFor dbd.now (own_root call.now.function dbd.now.types call.now at.now) seen.now rows → IfOk result (λ p. IsPosition dbd.now.types p.position) }
    ensures text { (rows : List Row) → IsRecordFor dbd.now (own_root call.now.function dbd.now.types call.now at.now) seen.now rows → All (λ type. type.bytes ≤ 1996) dbd.now.types → IfOk result (λ p. IfSome p.area IsSegmentText) }
    ensures there { (rows : List Row) → IsRecordFor dbd.now (own_root call.now.function dbd.now.types call.now at.now) seen.now rows → IfOk result (λ p. IsThere rows p.edit) }
{
    match call.function {
        Function::GNP => get_below(false, dbd, call, at, seen),
        Function::GHNP => get_below(true, dbd, call, at, seen),
        Function::ISRT => change::insert(alloc, dbd, call, copied(at)?, seen),
        Function::REPL => change::replace(alloc, dbd, call, copied(at)?, seen),
        Function::DLET => change::delete(alloc, dbd, copied(at)?, seen),
        Function::GU | Function::GN | Function::GHU | Function::GHN => unreachable!(),
        Function::PURG | Function::CHNG | Function::ROLB | Function::ROLL => unreachable!(),
    }
}

/// The root of the record that an allowed call then changes, or is refused to change, where it looks at
/// one record alone, of which these are the rows. This takes no memory.
pub fn would_change_own(dbd: &Dbd, call: &DbCall, at: &Position, seen: &[Row]) -> Option<Key>
    requires types { length dbd.now.types ≤ 255 }
    requires one { LooksAtOne call.now.function }
    requires call { IsDbCall dbd.now.types call.now }
    requires position { IsPosition dbd.now.types at.now }
    ensures { (rows : List Row) → IsRecordFor dbd.now (own_root call.now.function dbd.now.types call.now at.now) seen.now rows → result ≡ (allowed call.now.function dbd.now call.now at.now rows).changed }
{
    match call.function {
        Function::GNP | Function::GHNP => None,
        Function::ISRT => would_insert(dbd, call, seen),
        Function::REPL => would_replace(dbd, call, at, seen),
        Function::DLET => would_delete(dbd, at, seen),
        Function::GU | Function::GN | Function::GHU | Function::GHN => unreachable!(),
        Function::PURG | Function::CHNG | Function::ROLB | Function::ROLL => unreachable!(),
    }
}

fn copied(at: &Position) -> Result<Position, Memory>
    ensures { IfOk result (λ copy. copy ≡ at.now) }
{
    Ok(Position {
        position: copied_path(at.position.as_ref())?,
        parentage: copied_path(at.parentage.as_ref())?,
        hold: copied_path(at.hold.as_ref())?,
    })
}
