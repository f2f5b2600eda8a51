//! The databases that macros define, and the PCBs of a PSB.
ghost use Rattle.std.specs.Prelude.{◌≡◌, ◌+◌, ◌<◌, ◌≤◌, [], ◌++◌, true, false, None, IfOk, IfSome, OnOk, IsTrue, All, length, position};
ghost use Rattle.std.specs.List.{list_all};
ghost use Rattle.std.specs.Str.{bytes_eq};
ghost use Rattle.sysdef_rules.specs.declared.cross.CrossRule.TheVariants.{OfSegments, WrongCount};
ghost use Rattle.sysdef_rules.specs.declared.lookups.MacroKind.TheVariants.{Segments};
ghost use Rattle.sysdef_rules.specs.declared.segments.SegmentRule.TheVariants.{ParentAstray, KeyTooLong};
ghost use Rattle.sysdef_rules.specs.Counts.{past_limit};
ghost use Rattle.sysdef_rules.specs.Cross.{first_line};
ghost use Rattle.sysdef_rules.specs.Lookups.{is_of_kind};
ghost use Rattle.system_types.specs.Definitions.{IsInRange};
ghost use Rattle.sysdef_rules.specs.Segments.{breaks_key, breaks_parent, broken_by_segment, first_segment};
ghost use Rattle.sysdef_check.specs.Systems as spec;

use model_system::{Pcb, Pcbs};
use std::alloc::{AllocError, Global};
use sysdef_rules::{MacroKind, front, segment_number};
use system_types::{Macro, MacroLine};
use tm_types::{Dbd, Name, SegType, SegTypes};

fn parent_number(before: &[MacroLine], parent: &Option<Name>) -> u8
    requires { length before.now < 256 }
    ensures { result ≡ spec.parent_number before.now parent.now }
{
    match parent {
        Some(parent) => segment_number(parent, before),
        None => 0,
    }
}

/// The type of a segment behind those before it.
fn type_in(before: &[MacroLine], content: &Macro) -> Option<SegType>
    requires { length before.now < 256 }
    ensures { result ≡ spec.type_in before.now content.now }
{
    match content {
        Macro::Segment {
            name,
            parent,
            key,
            bytes,
        } => Some(SegType {
            name: *name,
            parent: parent_number(before, parent),
            key: *key,
            bytes: *bytes,
        }),
        _ => None,
    }
}

/// Adds the type of a segment behind those before it.
fn add_type(types: &mut SegTypes, before: &[MacroLine], content: &Macro) -> Result<(), AllocError>
    requires few { length before.now < 256 }
    requires place { length types.old ≡ length before.now }
    requires segment { is_of_kind Segments content.now ≡ true }
    requires parent { breaks_parent before.now content.now ≡ false }
    requires key { breaks_key content.now ≡ false }
    requires range { IsInRange content.now }
    ensures value { OnOk result (types.new ≡ types.old ++ spec.value_and_then (spec.type_in before.now content.now) []) }
    ensures counted { OnOk result (length types.new ≡ length types.old + 1) }
{
    match type_in(before, content) {
        Some(segment) => types.push(segment),
        None => Ok(()),
    }
}

/// The types of the segments of a database, which keep the rules on parents and keys.
fn types_in(alloc: Global, segments: &[MacroLine]) -> Result<SegTypes, AllocError>
    requires all { IsTrue (list_all (λ line. is_of_kind Segments line.content) segments.now) }
    requires parents { first_segment ParentAstray segments.now [] segments.now ≡ None }
    requires keys { first_segment KeyTooLong segments.now [] segments.now ≡ None }
    requires few { length segments.now ≤ 16 }
    requires range { All (λ line. IsInRange line.content) segments.now }
    ensures { IfOk result (λ types. types ≡ spec.types_in [] segments.now) }
{
    let mut types = SegTypes::new(alloc);
    for (index, line) in segments.iter().enumerate() {
        add_type(&mut types, &segments[..index], &line.content)?;
    }
    Ok(types)
}

/// The database of a DBD whose segments keep the rules on parents and keys, and are few.
fn database_in(
    alloc: Global,
    line: &MacroLine,
    behind: &[MacroLine],
) -> Result<Option<Dbd>, AllocError>
    requires parents { broken_by_segment ParentAstray line.now line.now.content behind.now ≡ None }
    requires keys { broken_by_segment KeyTooLong line.now line.now.content behind.now ≡ None }
    requires few { past_limit line.now.content behind.now ≡ None }
    requires range { All (λ l. IsInRange l.content) behind.now }
    ensures { IfOk result (λ database. database ≡ spec.database_in line.now.content behind.now) }
{
    match &line.content {
        Macro::Database {
            name,
            roots,
            sectors,
        } => Ok(Some(Dbd {
            name: *name,
            roots: *roots,
            sectors: *sectors,
            types: types_in(alloc, front(MacroKind::Segments, behind))?,
        })),
        _ => Ok(None),
    }
}

/// Adds the database of the line, where it has one.
fn add_database(
    alloc: Global,
    databases: &mut Vec<Dbd>,
    line: &MacroLine,
    behind: &[MacroLine],
) -> Result<(), AllocError>
    requires parents { broken_by_segment ParentAstray line.now line.now.content behind.now ≡ None }
    requires keys { broken_by_segment KeyTooLong line.now line.now.content behind.now ≡ None }
    requires few { past_limit line.now.content behind.now ≡ None }
    requires range { All (λ l. IsInRange l.content) behind.now }
    ensures { OnOk result (databases.new.items ≡ databases.old.items ++ spec.value_and_then (spec.database_in line.now.content behind.now) []) }
{
    match database_in(alloc, line, behind)? {
        Some(database) => databases.push(database)?,
        None => {}
    }
    Ok(())
}

/// The databases of macros that keep the rules on parents, keys and counts.
pub(crate) fn databases_in(alloc: Global, lines: &[MacroLine]) -> Result<Vec<Dbd>, AllocError>
    requires parents { first_line (OfSegments ParentAstray) lines.now [] lines.now ≡ None }
    requires keys { first_line (OfSegments KeyTooLong) lines.now [] lines.now ≡ None }
    requires counts { first_line WrongCount lines.now [] lines.now ≡ None }
    requires range { All (λ line. IsInRange line.content) lines.now }
    ensures { IfOk result (λ databases. databases.items ≡ spec.databases_in lines.now) }
{
    let mut databases = Vec::new(alloc);
    for (index, line) in lines.iter().enumerate() {
        add_database(alloc, &mut databases, line, &lines[index + 1..])?;
    }
    Ok(databases)
}

/// The number of the database with this name, counted from 1.
fn database_number(databases: &[Dbd], name: &Name) -> u8
    requires { length databases.now < 256 }
    ensures { result ≡ spec.database_number databases.now name.now }
{
    match database_place(databases, name) {
        Some(place) => place as u8 + 1,
        None => 0,
    }
}

fn database_place(databases: &[Dbd], name: &Name) -> Option<usize>
    ensures value { result ≡ position (λ database. bytes_eq database.name name.now) databases.now }
    ensures within { IfSome result (λ place. place < length databases.now) }
{
    databases
        .iter()
        .position(|database| is_named(database, name))
}

fn is_named(database: &Dbd, name: &Name) -> bool
    ensures { result ≡ bytes_eq database.now.name name.now }
{
    &database.name == name
}

fn pcb_in(databases: &[Dbd], content: &Macro) -> Option<Pcb>
    requires { length databases.now < 256 }
    ensures { result ≡ spec.pcb_in databases.now content.now }
{
    match content {
        Macro::DatabasePcb { database, options } => Some(Pcb::Database(
            database_number(databases, database),
            *options,
        )),
        Macro::DestinationPcb { destination } => Some(Pcb::Destination(*destination)),
        Macro::ModifiablePcb => Some(Pcb::Modifiable),
        _ => None,
    }
}

/// The PCBs that the lines have, in their order.
pub(crate) fn pcbs_in(
    alloc: Global,
    databases: &[Dbd],
    lines: &[MacroLine],
) -> Result<Pcbs, AllocError>
    requires { length databases.now < 256 }
    ensures { IfOk result (λ pcbs. pcbs ≡ spec.pcbs_in databases.now lines.now) }
{
    let mut pcbs = Pcbs::new(alloc);
    for line in lines {
        if let Some(pcb) = pcb_in(databases, &line.content) {
            pcbs.push(pcb)?;
        }
    }
    Ok(pcbs)
}
