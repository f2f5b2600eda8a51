//! The rules on the records of a snapshot alone.
ghost use Rattle.std.specs.Prelude.{◌≡◌, not, filter_map, map, position, IfOk};
ghost use Rattle.std.specs.List.{list_all, list_any};
ghost use Rattle.std.specs.Option.{is_some};
ghost use Rattle.std.specs.Str.{bytes_eq};
ghost use Rattle.model_image.specs.States.{is_system_terminal, is_system_code};
ghost use Rattle.model_image.specs.Snapshot.{terminal_name, code_name, reply_terminal, code_names, ascend_places, names_follow, out_of_order, missing_or_twice, reply_of_none};

use crate::order;
use log_records::Record;
use model_system::Code;
use std::alloc::Global;
use system_types::System;
use tm_types::{Memory, Name};

/// 11: there is another record than those of a snapshot, or they stand in another order.
pub fn out_of_order(alloc: Global, system: &System, records: &[Record]) -> Result<bool, Memory>
    ensures { IfOk result (λ broken. broken ≡ out_of_order system.now records.now) }
{
    let terminals = order::terminal_names(alloc, records)?;
    let codes = order::code_names(alloc, records)?;
    let defined = defined_codes(alloc, system)?;
    let replies = order::reply_terminals(alloc, records)?;
    let follows = follow(alloc, system, &replies)?;
    if !(order::begins_with_counts(records)
        && order::are_of_no_unit(records)
        && follows
        && order::ascend(records))
    {
        return Ok(true);
    }
    if order::are_others_in_order(&terminals, system.terminals()) {
        return Ok(true);
    }
    Ok(order::are_others_in_order(&codes, &defined))
}

/// 12, of the records: terminals and codes aren't those of the definition, or a number isn't one of a state.
pub fn missing_or_twice(alloc: Global, system: &System, records: &[Record]) -> Result<bool, Memory>
    ensures { IfOk result (λ broken. broken ≡ missing_or_twice system.now records.now) }
{
    let terminals = order::terminal_names(alloc, records)?;
    let codes = order::code_names(alloc, records)?;
    let defined = defined_codes(alloc, system)?;
    if !(order::are_same(&terminals, system.terminals()) && order::are_same(&codes, &defined)) {
        return Ok(true);
    }
    Ok(order::has_wrong_record(records))
}

/// 15, of the records: a reply belongs to no terminal.
pub fn reply_of_none(alloc: Global, system: &System, records: &[Record]) -> Result<bool, Memory>
    ensures { IfOk result (λ broken. broken ≡ reply_of_none system.now records.now) }
{
    let terminals = order::reply_terminals(alloc, records)?;
    Ok(!are_terminals(system, &terminals))
}

fn are_terminals(system: &System, names: &[Name]) -> bool
    ensures { result ≡ list_all (is_system_terminal system.now) names.now }
{
    names.iter().all(|name| is_terminal(system, name))
}

/// Whether the system has a terminal of this name.
#[tactic(auto, using(system_types::proofs::Indexed::place_is_there))]
pub fn is_terminal(system: &System, name: &Name) -> bool
    ensures { result ≡ is_system_terminal system.now name.now }
{
    system.terminal_place(name).is_some()
}

/// Whether the system has a code of this name.
pub fn is_code(system: &System, name: &Name) -> bool
    ensures { result ≡ is_system_code system.now name.now }
{
    match system.code(name) {
        Some(_) => true,
        None => false,
    }
}

/// The names of the codes, in the order of the definition.
fn defined_codes(alloc: Global, system: &System) -> Result<Vec<Name>, Memory>
    ensures { IfOk result (λ names. names.items ≡ code_names system.now) }
{
    system
        .codes()
        .iter()
        .map(|code| code_name(code))
        .collect(alloc)
}

fn code_name(code: &Code) -> Name
    ensures { result ≡ code.now.transaction.code }
{
    code.transaction.code
}

/// Names that stand in the order of the terminals, each as often as it likes.
fn follow(alloc: Global, system: &System, names: &[Name]) -> Result<bool, Memory>
    ensures { IfOk result (λ follows. follows ≡ names_follow system.now.terminals names.now) }
{
    let places = places_of(alloc, system, names)?;
    Ok(ascend_places(0, &places))
}

/// The places of the names that are terminals, in the order of the names.
fn places_of(alloc: Global, system: &System, names: &[Name]) -> Result<Vec<usize>, Memory>
    ensures { IfOk result (λ places. places.items ≡ filter_map (λ name. position (λ other. bytes_eq other name) system.now.terminals) names.now) }
{
    names
        .iter()
        .filter_map(|name| system.terminal_place(name))
        .collect(alloc)
}

fn ascend_places(least: usize, places: &[usize]) -> bool
    ensures { result ≡ ascend_places least places.now }
{
    let mut least = least;
    for place in places {
        if *place < least {
            return false;
        }
        least = *place;
    }
    true
}
