//! Which records a snapshot has, and in which order they stand.
ghost use Rattle.std.specs.Prelude.{◌≡◌, ◌==◌, ◌&&◌, ◌||◌, nat_lt, filter_map, IfOk};
ghost use Rattle.std.specs.Str.{bytes_eq};
ghost use Rattle.model_image.specs.States.{is_small, is_next};
ghost use Rattle.std.specs.List.{list_all, list_any};
ghost use Rattle.model_image.specs.Snapshot.{rank, are_ranked, begins_with_counts, is_of_no_unit, terminal_name, code_name, reply_terminal, are_same, has_name, are_others_in_order, is_record_before, ascend, wrong_record};

use log_records::Record;
use std::alloc::Global;
use tm_types::{Memory, Name};

/// From this number on a number isn't counted on.
const NUMBER_LIMIT: u64 = 2_000_000_000_000_000_000;

/// The place of a kind of record among the kinds; 6 for those that no snapshot has.
fn rank(r: &Record) -> u8
    ensures { result ≡ rank r.now }
{
    match r {
        Record::Checkpoint { .. } => 0,
        Record::Terminal { .. } => 1,
        Record::Code { .. } => 2,
        Record::Input { .. } => 3,
        Record::Reply { .. } => 4,
        Record::Change { .. } => 5,
        _ => 6,
    }
}

/// The counts stand first, and no others behind them; the kinds ascend.
pub fn begins_with_counts(records: &[Record]) -> bool
    ensures { result ≡ begins_with_counts records.now }
{
    match records.split_first() {
        Some((first, rest)) => rank(first) == 0 && are_ranked(1, rest),
        None => false,
    }
}

fn are_ranked(least: u8, records: &[Record]) -> bool
    ensures { result ≡ are_ranked least records.now }
{
    let mut least = least;
    for record in records {
        let rank = rank(record);
        if rank < least || rank >= 6 {
            return false;
        }
        least = rank;
    }
    true
}

/// Messages and replies belong to no unit, and messages have no number.
pub fn are_of_no_unit(records: &[Record]) -> bool
    ensures { result ≡ list_all is_of_no_unit records.now }
{
    records.iter().all(|record| is_of_no_unit(record))
}

fn is_of_no_unit(r: &Record) -> bool
    ensures { result ≡ is_of_no_unit r.now }
{
    match r {
        Record::Input { unit, number, .. } => *unit == 0 && *number == 0,
        Record::Reply { unit, .. } => *unit == 0,
        _ => true,
    }
}

/// The names of the terminals that the records tell of, in their order.
pub fn terminal_names(alloc: Global, records: &[Record]) -> Result<Vec<Name>, Memory>
    ensures { IfOk result (λ names. names.items ≡ filter_map terminal_name records.now) }
{
    records
        .iter()
        .filter_map(|record| terminal_name(record))
        .collect(alloc)
}

fn terminal_name(r: &Record) -> Option<Name>
    ensures { result ≡ terminal_name r.now }
{
    match r {
        Record::Terminal { terminal, .. } => Some(*terminal),
        _ => None,
    }
}

/// The names of the codes that the records tell of, in their order.
pub fn code_names(alloc: Global, records: &[Record]) -> Result<Vec<Name>, Memory>
    ensures { IfOk result (λ names. names.items ≡ filter_map code_name records.now) }
{
    records
        .iter()
        .filter_map(|record| code_name(record))
        .collect(alloc)
}

fn code_name(r: &Record) -> Option<Name>
    ensures { result ≡ code_name r.now }
{
    match r {
        Record::Code { code, .. } => Some(*code),
        _ => None,
    }
}

/// The terminals of the replies, in their order.
pub fn reply_terminals(alloc: Global, records: &[Record]) -> Result<Vec<Name>, Memory>
    ensures { IfOk result (λ names. names.items ≡ filter_map reply_terminal records.now) }
{
    records
        .iter()
        .filter_map(|record| reply_terminal(record))
        .collect(alloc)
}

fn reply_terminal(r: &Record) -> Option<Name>
    ensures { result ≡ reply_terminal r.now }
{
    match r {
        Record::Reply { terminal, .. } => Some(*terminal),
        _ => None,
    }
}

/// Whether these are the same names in the same order.
pub fn are_same(names: &[Name], others: &[Name]) -> bool
    ensures { result ≡ are_same names.now others.now }
{
    if names.len() != others.len() {
        return false;
    }
    for (place, name) in names.iter().enumerate() {
        if !is_name(name, &others[place]) {
            return false;
        }
    }
    true
}

fn is_name(name: &Name, other: &Name) -> bool
    ensures { result ≡ bytes_eq name.now other.now }
{
    name == other
}

/// Whether these are the names of the definition, each once, in another order.
pub fn are_others_in_order(names: &[Name], defined: &[Name]) -> bool
    ensures { result ≡ are_others_in_order names.now defined.now }
{
    !are_same(names, defined) && names.len() == defined.len() && has_all(names, defined)
}

fn has_all(names: &[Name], defined: &[Name]) -> bool
    ensures { result ≡ list_all (has_name names.now) defined.now }
{
    defined.iter().all(|name| has_name(names, name))
}

fn has_name(names: &[Name], name: &Name) -> bool
    ensures { result ≡ has_name names.now name.now }
{
    names.iter().any(|other| is_name(other, name))
}

/// Changes stand by unit, database and slot, each once.
pub fn ascend(records: &[Record]) -> bool
    ensures { result ≡ ascend records.now }
{
    for place in 1..records.len() {
        if !is_before(&records[place - 1], &records[place]) {
            return false;
        }
    }
    true
}

fn is_before(r: &Record, other: &Record) -> bool
    ensures { result ≡ is_record_before r.now other.now }
{
    match (r, other) {
        (
            Record::Change {
                unit,
                database,
                slot,
                ..
            },
            Record::Change {
                unit: other_unit,
                database: other_database,
                slot: other_slot,
                ..
            },
        ) => is_place_before(
            *unit,
            *database,
            *slot,
            *other_unit,
            *other_database,
            *other_slot,
        ),
        _ => true,
    }
}

fn is_place_before(
    unit: u64,
    database: u8,
    slot: u16,
    other_unit: u64,
    other_database: u8,
    other_slot: u16,
) -> bool
    ensures { result ≡ (nat_lt unit other_unit || ((unit == other_unit) && (nat_lt database other_database || ((database == other_database) && nat_lt slot other_slot)))) }
{
    if unit != other_unit {
        return unit < other_unit;
    }
    if database != other_database {
        return database < other_database;
    }
    slot < other_slot
}

/// Whether a number of a record isn't one of a state.
pub fn has_wrong_record(records: &[Record]) -> bool
    ensures { result ≡ list_any wrong_record records.now }
{
    records.iter().any(|record| is_wrong_record(record))
}

fn is_wrong_record(r: &Record) -> bool
    ensures { result ≡ wrong_record r.now }
{
    match r {
        Record::Checkpoint {
            checkpoint,
            next_unit,
            ..
        } => !(is_small(*checkpoint) && is_next(*next_unit)),
        _ => false,
    }
}

/// A number that may be counted on.
pub fn is_small(number: u64) -> bool
    ensures { result ≡ is_small number }
{
    number < NUMBER_LIMIT
}

/// A number that is the next one.
pub fn is_next(number: u64) -> bool
    ensures { result ≡ is_next number }
{
    number != 0 && is_small(number)
}
