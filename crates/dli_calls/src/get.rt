//! The gets: GU, GN and GNP, and the same with hold.
ghost use Rattle.std.specs.Prelude.{◌≡◌, ◌≤◌, List, length, All, IfOk, IfSome, IsSome, OnErr, None, Some, ◌⊎◌, if◌then◌else◌};
ghost use Rattle.std.specs.Option.{option_copied, option_map};
ghost use Rattle.tm_types.specs.declared.dbd.SegType.{SegType};
ghost use Rattle.tm_types.specs.declared.ssa.Ssa.{Ssa};
ghost use Rattle.tm_types.specs.Segment.{IsSegmentText};
ghost use Rattle.model_data.specs.declared.row.Row.{Row};
ghost use Rattle.model_data.specs.declared.call.Position.{Position};
ghost use Rattle.model_data.specs.declared.call.Reach.TheVariants.{Parent};
ghost use Rattle.model_data.specs.Path.{root_of};
ghost use Rattle.model_data.specs.GetCalls.{row_reached, missed_status, level_status, moved_status, reached_status, parentage_at, position_at, position_failed, position_missed};
ghost use Rattle.model_data.specs.DatabaseCalls.{get};
ghost use Rattle.model_data.specs.Conditions.{IsPosition};
ghost use Rattle.dli_calls.specs.CallPlan.{Plans, StandsSomewhere};
ghost use Rattle.dli_calls.specs.OwnRecord.{GoesAlong, IsReachedIn, IsRecordFor};

use crate::planned::{Planned, answer_at};
use model_data::{DbCall, Path, Position, Reach, Row};
use row_search::{Asked, asked_root, first_below, has_path};
use tm_types::{Dbd, Memory, Ssa, Status};

/// What a GU or GN, with hold or without, comes to that reaches this row, or none. It changes no rows, and where the PCB then
/// stands is made anew.
pub fn get_found(
    reach: Reach,
    hold: bool,
    dbd: &Dbd,
    call: &DbCall,
    at: &Position,
    row: Option<&Row>,
) -> Result<Planned, Memory>
    requires types { length dbd.now.types ≤ 255 }
    requires along { GoesAlong reach }
    requires position { IsPosition dbd.now.types at.now }
    ensures planned { (rows : List Row) → IsReachedIn dbd.now reach call.now.ssas at.now (option_copied row.entry) rows → IfOk result (Plans dbd.now rows (get reach hold dbd.now call.now at.now rows)) }
    ensures valid { (rows : List Row) → IsReachedIn dbd.now reach call.now.ssas at.now (option_copied row.entry) rows → IfOk result (λ p. IsPosition dbd.now.types p.position) }
    ensures text { (rows : List Row) → IsReachedIn dbd.now reach call.now.ssas at.now (option_copied row.entry) rows → All (λ type. type.bytes ≤ 1996) dbd.now.types → IfOk result (λ p. IfSome p.area IsSegmentText) }
    ensures no_edit { IfOk result (λ p. p.edit ≡ None) }
    // A get that reaches no row, by a PCB that stands nowhere, takes no memory.
    ensures memory { OnErr result (IsSome (option_copied row.entry) ⊎ StandsSomewhere at.now) }
{
    let ssas = call.ssas.as_slice();
    match row {
        Some(row) => get_reached(reach, hold, ssas, at, row),
        None => get_missed(reach, missed_along(reach, dbd, ssas), at),
    }
}

/// What a GNP comes to, on the rows of the record of the parentage; where there is no parentage, the rows
/// are of no account.
pub fn get_below(
    hold: bool,
    dbd: &Dbd,
    call: &DbCall,
    at: &Position,
    seen: &[Row],
) -> Result<Planned, Memory>
    requires types { length dbd.now.types ≤ 255 }
    requires position { IsPosition dbd.now.types at.now }
    ensures planned { (rows : List Row) → IsRecordFor dbd.now (option_map root_of at.now.parentage) seen.now rows → IfOk result (Plans dbd.now rows (get Parent hold dbd.now call.now at.now rows)) }
    ensures valid { (rows : List Row) → IsRecordFor dbd.now (option_map root_of at.now.parentage) seen.now rows → IfOk result (λ p. IsPosition dbd.now.types p.position) }
    ensures text { (rows : List Row) → IsRecordFor dbd.now (option_map root_of at.now.parentage) seen.now rows → All (λ type. type.bytes ≤ 1996) dbd.now.types → IfOk result (λ p. IfSome p.area IsSegmentText) }
    ensures no_edit { IfOk result (λ p. p.edit ≡ None) }
    // A GNP by a PCB that stands nowhere takes no memory.
    ensures memory { OnErr result (StandsSomewhere at.now) }
{
    let ssas = call.ssas.as_slice();
    match reached_below(dbd, ssas, at, seen) {
        Some(row) => get_reached(Reach::Parent, hold, ssas, at, row),
        None => get_missed(Reach::Parent, missed_below(at, seen), at),
    }
}

fn get_reached(
    reach: Reach,
    hold: bool,
    ssas: &[Ssa],
    at: &Position,
    row: &Row,
) -> Result<Planned, Memory>
    ensures { IfOk result (λ p. p ≡ record { status = reached_status reach ssas.now at.now row.now.path; area = Some row.now.bytes; position = position_at reach hold at.now row.now.path; edit = None }) }
{
    Ok(Planned {
        status: reached_status(reach, ssas, at, &row.path),
        area: Some(row.bytes.clone()?),
        position: reached_position(reach, hold, at, &row.path)?,
        edit: None,
    })
}

fn get_missed(reach: Reach, status: Status, at: &Position) -> Result<Planned, Memory>
    ensures planned { IfOk result (λ p. p ≡ record { status = status; area = None; position = position_missed reach status at.now; edit = None }) }
    ensures memory { OnErr result (StandsSomewhere at.now) }
{
    let mut position = failed(reach, at)?;
    if let Status::GB = status {
        position.position = None;
    }
    Ok(answer_at(status, position))
}

/// The row that a GNP reaches among these of its record.
fn reached_below<'a>(dbd: &Dbd, ssas: &[Ssa], at: &Position, seen: &'a [Row]) -> Option<&'a Row>
    requires { length dbd.now.types ≤ 255 }
    ensures { option_copied result ≡ row_reached Parent dbd.now.types ssas.now at.now seen.now }
{
    let parent = at.parentage.as_ref()?;
    if !has_path(parent, seen) {
        return None;
    }
    let asked = Asked::of(dbd, ssas);
    first_below(&asked, at.position.as_ref(), parent, seen)
}

/// The status of a GU or GN that reaches no row.
fn missed_along(reach: Reach, dbd: &Dbd, ssas: &[Ssa]) -> Status
    requires types { length dbd.now.types ≤ 255 }
    requires along { GoesAlong reach }
    ensures { (at : Position) → (rows : List Row) → result ≡ missed_status reach dbd.now.types ssas.now at rows }
{
    match reach {
        Reach::Start => Status::GE,
        Reach::Next => match asked_root(&dbd.types, ssas) {
            Some(_) => Status::GE,
            None => Status::GB,
        },
        Reach::Parent => unreachable!(),
    }
}

/// The status of a GNP that reaches no row among these of its record.
fn missed_below(at: &Position, seen: &[Row]) -> Status
    ensures { (types : List SegType) → (ssas : List Ssa) → result ≡ missed_status Parent types ssas at.now seen.now }
{
    let Some(parent) = &at.parentage else {
        return Status::GP;
    };
    if has_path(parent, seen) {
        Status::GE
    } else {
        Status::GP
    }
}

/// The status of a get that reaches a row of this path.
fn reached_status(reach: Reach, ssas: &[Ssa], at: &Position, path: &Path) -> Status
    ensures { result ≡ reached_status reach ssas.now at.now path.now }
{
    match reach {
        Reach::Start => Status::Blank,
        Reach::Next => moved_status(ssas, at.position.as_ref(), path),
        Reach::Parent => moved_status(ssas, at.position.as_ref(), path),
    }
}

fn moved_status(ssas: &[Ssa], from: Option<&Path>, path: &Path) -> Status
    ensures { result ≡ moved_status ssas.now (option_copied from.entry) path.now }
{
    match (ssas, from) {
        ([], Some(from)) => level_status(from, path),
        ([], None) => Status::Blank,
        ([_, ..], _) => Status::Blank,
    }
}

fn level_status(from: &Path, path: &Path) -> Status
    ensures { result ≡ level_status from.now path.now }
{
    if path.len() < from.len() {
        Status::GA
    } else if path.len() == from.len() && path.segment() != from.segment() {
        Status::GK
    } else {
        Status::Blank
    }
}

/// Where the PCB stands after a get has reached a row of this path.
fn reached_position(
    reach: Reach,
    hold: bool,
    at: &Position,
    path: &Path,
) -> Result<Position, Memory>
    ensures { IfOk result (λ p. p ≡ position_at reach hold at.now path.now) }
{
    Ok(Position {
        position: Some(path.clone()?),
        parentage: reached_parentage(reach, at, path)?,
        hold: held_path(hold, path)?,
    })
}

fn reached_parentage(reach: Reach, at: &Position, path: &Path) -> Result<Option<Path>, Memory>
    ensures { IfOk result (λ parentage. parentage ≡ parentage_at reach at.now path.now) }
{
    match reach {
        Reach::Start => Ok(Some(path.clone()?)),
        Reach::Next => Ok(Some(path.clone()?)),
        Reach::Parent => copied_path(at.parentage.as_ref()),
    }
}

fn held_path(hold: bool, path: &Path) -> Result<Option<Path>, Memory>
    ensures { IfOk result (λ held. held ≡ if hold then Some path.now else None) }
{
    if hold {
        Ok(Some(path.clone()?))
    } else {
        Ok(None)
    }
}

/// Where the PCB stands after a get has failed.
pub fn failed(reach: Reach, at: &Position) -> Result<Position, Memory>
    ensures made { IfOk result (λ p. p ≡ position_failed reach at.now) }
    ensures memory { OnErr result (StandsSomewhere at.now) }
{
    let position = copied_path(at.position.as_ref())?;
    let parentage = failed_parentage(reach, at)?;
    Ok(Position {
        position,
        parentage,
        hold: None,
    })
}

fn failed_parentage(reach: Reach, at: &Position) -> Result<Option<Path>, Memory>
    ensures made { IfOk result (λ parentage. parentage ≡ (position_failed reach at.now).parentage) }
    ensures memory { OnErr result (IsSome at.now.parentage) }
{
    match reach {
        Reach::Start => Ok(None),
        Reach::Next => Ok(None),
        Reach::Parent => copied_path(at.parentage.as_ref()),
    }
}

/// A copy of a path, if there is one.
pub fn copied_path(path: Option<&Path>) -> Result<Option<Path>, Memory>
    ensures copy { IfOk result (λ copy. copy ≡ option_copied path.entry) }
    ensures memory { OnErr result (IsSome (option_copied path.entry)) }
{
    match path {
        Some(path) => Ok(Some(path.clone()?)),
        None => Ok(None),
    }
}
