//! The calls that change a record: ISRT, REPL and DLET, each on the rows of that record alone.
ghost use Rattle.std.specs.Prelude.{◌≡◌, ◌≤◌, List, length, IfOk, IsTrue, Some, None};
ghost use Rattle.std.specs.List.{list_all};
ghost use Rattle.std.specs.Option.{option_map, option_map_or};
ghost use Rattle.std.specs.Ordering.{is_eq};
ghost use Rattle.tm_types.specs.Segment.{is_printable};
ghost use Rattle.model_data.specs.declared.row.Row.{Row};
ghost use Rattle.model_data.specs.declared.call.Position.{Position};
ghost use Rattle.model_data.specs.Path.{key_cmp, root_of, end_type, end_key, IsPath};
ghost use Rattle.model_data.specs.Search.{fitted_key, key_length, data_length};
ghost use Rattle.model_data.specs.ChangeCalls.{insert_path, replace_fault, delete_fault, with_data};
ghost use Rattle.model_data.specs.Conditions.{AreInsertSsas, IsPosition};
ghost use Rattle.model_data.specs.DatabaseCalls.{insert, replace, delete};
ghost use Rattle.dli_calls.specs.CallPlan.{IsThere, Plans};
ghost use Rattle.dli_calls.specs.OwnRecord.{replaced_root, IsRecordFor};

use crate::edit;
use crate::inserting::{insert_fault, insert_root, insert_row};
use crate::planned::{Planned, answer_at, set_record};
use model_data::{DbCall, Path, Position, Row};
use row_search::{data_length, fitted_bytes, fitted_key, has_path};
use seg_rows::RecordImage;
use std::alloc::Global;
use tm_types::{Dbd, Key, Memory, SegTypes, Status};

/// An ISRT, on the rows of the record that is to have the new segment.
pub fn insert(
    alloc: Global,
    dbd: &Dbd,
    call: &DbCall,
    mut at: Position,
    seen: &[Row],
) -> Result<Planned, Memory>
    requires types { length dbd.now.types ≤ 255 }
    requires position { IsPosition dbd.now.types at }
    requires ssas { AreInsertSsas dbd.now.types 0 call.now.ssas }
    requires area { IsTrue (list_all is_printable call.now.area) }
    ensures planned { (rows : List Row) → IsRecordFor dbd.now (Some (root_of (insert_path dbd.now.types call.now.ssas call.now.area))) seen.now rows → IfOk result (Plans dbd.now rows (insert dbd.now call.now at rows)) }
    ensures position { (rows : List Row) → IsRecordFor dbd.now (Some (root_of (insert_path dbd.now.types call.now.ssas call.now.area))) seen.now rows → IfOk result (λ p. IsPosition dbd.now.types p.position) }
    ensures no_data { IfOk result (λ p. p.area ≡ None) }
    ensures there { (rows : List Row) → IsRecordFor dbd.now (Some (root_of (insert_path dbd.now.types call.now.ssas call.now.area))) seen.now rows → IfOk result (λ p. IsThere rows p.edit) }
{
    let ssas = call.ssas.as_slice();
    let area = call.area.as_slice();
    if let Some(status) = insert_fault(&dbd.types, area, ssas, seen) {
        at.hold = None;
        return Ok(answer_at(status, at));
    }
    let row = insert_row(alloc, &dbd.types, area, ssas)?;
    let Some(root) = row.path.root() else {
        unreachable!()
    };
    let image = edit::with_row(alloc, &row, seen)?;
    at.position = Some(row.path);
    at.hold = None;
    Ok(set_record(at, root, image))
}

/// A REPL, on the rows of the record that has the segment which was got with hold. Where there is none,
/// or the data has another key, the rows are of no account.
pub fn replace(
    alloc: Global,
    dbd: &Dbd,
    call: &DbCall,
    mut at: Position,
    seen: &[Row],
) -> Result<Planned, Memory>
    requires position { IsPosition dbd.now.types at }
    requires area { IsTrue (list_all is_printable call.now.area) }
    ensures planned { (rows : List Row) → IsRecordFor dbd.now (option_map_or (replaced_root dbd.now.types call.now.area) at.hold None) seen.now rows → IfOk result (Plans dbd.now rows (replace dbd.now call.now at rows)) }
    ensures position { (rows : List Row) → IsRecordFor dbd.now (option_map_or (replaced_root dbd.now.types call.now.area) at.hold None) seen.now rows → IfOk result (λ p. IsPosition dbd.now.types p.position) }
    ensures no_data { IfOk result (λ p. p.area ≡ None) }
    ensures there { (rows : List Row) → IsRecordFor dbd.now (option_map_or (replaced_root dbd.now.types call.now.area) at.hold None) seen.now rows → IfOk result (λ p. IsThere rows p.edit) }
{
    let area = call.area.as_slice();
    let Some(held) = &at.hold else {
        return Ok(answer_at(Status::DJ, at));
    };
    if let Some(status) = replace_fault(&dbd.types, held, area, seen) {
        at.hold = None;
        return Ok(answer_at(status, at));
    }
    let Some(root) = held.root() else {
        unreachable!()
    };
    let image = with_data(alloc, dbd, held, area, seen)?;
    at.hold = None;
    Ok(set_record(at, root, image))
}

/// A DLET, on the rows of the record that has the segment which was got with hold. Where there is none,
/// the rows are of no account.
pub fn delete(alloc: Global, dbd: &Dbd, mut at: Position, seen: &[Row]) -> Result<Planned, Memory>
    requires { IsPosition dbd.now.types at }
    ensures planned { (rows : List Row) → IsRecordFor dbd.now (option_map root_of at.hold) seen.now rows → IfOk result (Plans dbd.now rows (delete dbd.now at rows)) }
    ensures position { (rows : List Row) → IsRecordFor dbd.now (option_map root_of at.hold) seen.now rows → IfOk result (λ p. IsPosition dbd.now.types p.position) }
    ensures no_data { IfOk result (λ p. p.area ≡ None) }
    ensures there { (rows : List Row) → IsRecordFor dbd.now (option_map root_of at.hold) seen.now rows → IfOk result (λ p. IsThere rows p.edit) }
{
    let Some(held) = &at.hold else {
        return Ok(answer_at(Status::DJ, at));
    };
    if let Some(status) = delete_fault(held, seen) {
        at.hold = None;
        return Ok(answer_at(status, at));
    }
    let Some(root) = held.root() else {
        unreachable!()
    };
    let image = edit::without(alloc, held, seen)?;
    at.hold = None;
    Ok(set_record(at, root, image))
}

/// The root of the record that an ISRT changes, or is refused to change, on the rows of the record that
/// is to have the new segment. This takes no memory.
pub fn would_insert(dbd: &Dbd, call: &DbCall, seen: &[Row]) -> Option<Key>
    requires types { length dbd.now.types ≤ 255 }
    requires ssas { AreInsertSsas dbd.now.types 0 call.now.ssas }
    ensures { (at : Position) → (rows : List Row) → IsRecordFor dbd.now (Some (root_of (insert_path dbd.now.types call.now.ssas call.now.area))) seen.now rows → result ≡ (insert dbd.now call.now at rows).changed }
{
    let ssas = call.ssas.as_slice();
    let area = call.area.as_slice();
    match insert_fault(&dbd.types, area, ssas, seen) {
        Some(_) => None,
        None => Some(insert_root(&dbd.types, area, ssas)),
    }
}

/// The same of a REPL.
pub fn would_replace(dbd: &Dbd, call: &DbCall, at: &Position, seen: &[Row]) -> Option<Key>
    requires { IsPosition dbd.now.types at.now }
    ensures { (rows : List Row) → IsRecordFor dbd.now (option_map_or (replaced_root dbd.now.types call.now.area) at.now.hold None) seen.now rows → result ≡ (replace dbd.now call.now at.now rows).changed }
{
    let held = at.hold.as_ref()?;
    match replace_fault(&dbd.types, held, call.area.as_slice(), seen) {
        Some(_) => None,
        None => held.root(),
    }
}

/// The same of a DLET.
pub fn would_delete(dbd: &Dbd, at: &Position, seen: &[Row]) -> Option<Key>
    requires { IsPosition dbd.now.types at.now }
    ensures { (rows : List Row) → IsRecordFor dbd.now (option_map root_of at.now.hold) seen.now rows → result ≡ (delete dbd.now at.now rows).changed }
{
    let held = at.hold.as_ref()?;
    match delete_fault(held, seen) {
        Some(_) => None,
        None => held.root(),
    }
}

/// Why the segment of this path isn't deleted, if it isn't: the rows of its record say so.
fn delete_fault(held: &Path, seen: &[Row]) -> Option<Status>
    ensures { result ≡ delete_fault held.now seen.now }
{
    if has_path(held, seen) {
        None
    } else {
        Some(Status::DJ)
    }
}

/// Why the data of the segment of this path isn't replaced, if it isn't.
fn replace_fault(types: &SegTypes, held: &Path, area: &[u8], seen: &[Row]) -> Option<Status>
    requires { IsPath types.now held.now }
    ensures { result ≡ replace_fault types.now held.now area.now seen.now }
{
    if !keeps_key(types, held, area) {
        return Some(Status::DA);
    }
    delete_fault(held, seen)
}

/// Whether this data has the key of the segment of this path.
pub fn keeps_key(types: &SegTypes, held: &Path, area: &[u8]) -> bool
    requires { IsPath types.now held.now }
    ensures { result ≡ is_eq (key_cmp (end_key held.now) (fitted_key (key_length types.now (end_type held.now)) area.now)) }
{
    let Some(segment) = types.numbered(held.segment()) else {
        unreachable!()
    };
    end_key(held).cmp(&fitted_key(segment.key, area)).is_eq()
}

/// The key of the segment to which a path leads.
fn end_key(path: &Path) -> Key
    requires { 1 ≤ length path.now }
    ensures { result ≡ end_key path.now }
{
    match path.as_slice() {
        [] => unreachable!(),
        [.., last] => last.1,
    }
}

/// These rows with this data, fitted to its type, in place of that of one segment.
fn with_data(
    alloc: Global,
    dbd: &Dbd,
    held: &Path,
    area: &[u8],
    seen: &[Row],
) -> Result<RecordImage, Memory>
    requires { 1 ≤ length held.now }
    ensures { IfOk result (λ image. image ≡ with_data held.now (fitted_key (data_length dbd.now.types (end_type held.now)) area.now) seen.now) }
{
    let length = data_length(&dbd.types, held.segment());
    let bytes = fitted_bytes(alloc, length, area)?;
    edit::with_data(alloc, held, &bytes, seen)
}
