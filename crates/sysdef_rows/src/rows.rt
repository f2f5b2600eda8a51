//! The table of macros: a row for each.
ghost use Rattle.std.specs.Prelude.{◌≡◌, false, None, codes};
ghost use Rattle.text_rows.specs.Numbers.{number_between};
ghost use Rattle.text_rows.specs.Names as names;
ghost use Rattle.text_rows.specs.Operands.{needed, or_as};
ghost use Rattle.model_system.specs.declared.code.SegmentKind.TheVariants.{Multiple};
ghost use Rattle.sysdef_rows.specs.Values as values;
ghost use Rattle.sysdef_rows.specs.Rows as spec;

use crate::Kind;
use crate::pcbs::pcb_row;
use crate::values::{
    classes_of, limits_of, message_type_of, pad_of, parent_of, priorities_of, serial_of,
    short_between,
};
use model_system::{Classes, SegmentKind, Transaction};
use system_types::Macro;
use text_rows::rules::OPERAND_MISSING;
use text_rows::{Operands, also, both, byte_between, name_of, number_between, split_at};
use tm_types::Name;

#[tactic(auto, unfolding(text_rows::specs::Operands::or_as))]
fn qbytes(operands: &Operands<'_>) -> Result<u32, u8>
    ensures { result ≡ or_as (codes "QBYTES") (number_between 131072 8388608) 8388608 operands.now }
{
    match operands.only_value(b"QBYTES")? {
        Some(text) => number_between(131_072, 8_388_608, text),
        None => Ok(8_388_608),
    }
}

#[tactic(auto, unfolding(text_rows::specs::Operands::or_as))]
fn logs(operands: &Operands<'_>) -> Result<u32, u8>
    ensures { result ≡ or_as (codes "LOGS") (number_between 64 2048) 2048 operands.now }
{
    match operands.only_value(b"LOGS")? {
        Some(text) => number_between(64, 2048, text),
        None => Ok(2048),
    }
}

#[tactic(auto, unfolding(text_rows::specs::Operands::or_as))]
fn roots(operands: &Operands<'_>) -> Result<u16, u8>
    ensures { result ≡ or_as (codes "ROOTS") (number_between 1 4096) 4096 operands.now }
{
    match operands.only_value(b"ROOTS")? {
        Some(text) => short_between(1, 4096, text),
        None => Ok(4096),
    }
}

#[tactic(auto, unfolding(text_rows::specs::Operands::or_as))]
fn sectors(operands: &Operands<'_>) -> Result<u8, u8>
    ensures { result ≡ or_as (codes "SECTORS") (number_between 1 8) 1 operands.now }
{
    match operands.only_value(b"SECTORS")? {
        Some(text) => byte_between(1, 8, text),
        None => Ok(1),
    }
}

#[tactic(auto, unfolding(text_rows::specs::Operands::needed))]
fn parent(operands: &Operands<'_>) -> Result<Option<Name>, u8>
    ensures { result ≡ needed (codes "PARENT") values.parent_of operands.now }
{
    match operands.only_value(b"PARENT")? {
        Some(text) => parent_of(text),
        None => Err(OPERAND_MISSING),
    }
}

#[tactic(auto, unfolding(text_rows::specs::Operands::needed))]
fn key(operands: &Operands<'_>) -> Result<u8, u8>
    ensures { result ≡ needed (codes "KEY") (number_between 1 32) operands.now }
{
    match operands.only_value(b"KEY")? {
        Some(text) => byte_between(1, 32, text),
        None => Err(OPERAND_MISSING),
    }
}

#[tactic(auto, unfolding(text_rows::specs::Operands::needed))]
fn bytes(operands: &Operands<'_>) -> Result<u16, u8>
    ensures { result ≡ needed (codes "BYTES") (number_between 1 1900) operands.now }
{
    match operands.only_value(b"BYTES")? {
        Some(text) => short_between(1, 1900, text),
        None => Err(OPERAND_MISSING),
    }
}

#[tactic(auto, unfolding(text_rows::specs::Operands::or_as))]
fn message_type(operands: &Operands<'_>) -> Result<(SegmentKind, u8), u8>
    ensures { result ≡ or_as (codes "MSGTYPE") values.message_type_of (Multiple, 1) operands.now }
{
    match operands.only_value(b"MSGTYPE")? {
        Some(text) => message_type_of(text),
        None => Ok((SegmentKind::Multiple, 1)),
    }
}

#[tactic(auto, unfolding(text_rows::specs::Operands::or_as))]
fn priorities(operands: &Operands<'_>) -> Result<(u8, (u8, u16)), u8>
    ensures { result ≡ or_as (codes "PRTY") values.priorities_of (1, (1, 65535)) operands.now }
{
    match operands.only_value(b"PRTY")? {
        Some(text) => priorities_of(text),
        None => Ok((1, (1, 65535))),
    }
}

#[tactic(auto, unfolding(text_rows::specs::Operands::or_as))]
fn limits(operands: &Operands<'_>) -> Result<(u16, u16), u8>
    ensures { result ≡ or_as (codes "PROCLIM") values.limits_of (65535, 65535) operands.now }
{
    match operands.only_value(b"PROCLIM")? {
        Some(text) => limits_of(text),
        None => Ok((65535, 65535)),
    }
}

#[tactic(auto, unfolding(text_rows::specs::Operands::or_as))]
fn segment_count(operands: &Operands<'_>) -> Result<u8, u8>
    ensures { result ≡ or_as (codes "SEGNO") (number_between 1 32) 32 operands.now }
{
    match operands.only_value(b"SEGNO")? {
        Some(text) => byte_between(1, 32, text),
        None => Ok(32),
    }
}

#[tactic(auto, unfolding(text_rows::specs::Operands::or_as))]
fn segment_size(operands: &Operands<'_>) -> Result<u16, u8>
    ensures { result ≡ or_as (codes "SEGSIZE") (number_between 5 2000) 2000 operands.now }
{
    match operands.only_value(b"SEGSIZE")? {
        Some(text) => short_between(5, 2000, text),
        None => Ok(2000),
    }
}

#[tactic(auto, unfolding(text_rows::specs::Operands::or_as))]
fn scratch_pad(operands: &Operands<'_>) -> Result<u16, u8>
    ensures { result ≡ or_as (codes "SPA") values.pad_length_of 0 operands.now }
{
    match operands.only_value(b"SPA")? {
        Some(text) => pad_of(text),
        None => Ok(0),
    }
}

#[tactic(auto, unfolding(text_rows::specs::Operands::or_as))]
fn serial(operands: &Operands<'_>) -> Result<bool, u8>
    ensures { result ≡ or_as (codes "SERIAL") values.serial_of false operands.now }
{
    match operands.only_value(b"SERIAL")? {
        Some(text) => serial_of(text),
        None => Ok(false),
    }
}

/// The name of a terminal's format, if it has one.
#[tactic(auto, unfolding(text_rows::specs::Operands::or_as))]
fn format(operands: &Operands<'_>) -> Result<Option<Name>, u8>
    ensures { result ≡ or_as (codes "FORMAT") (λ text. values.parent_name (names.name_of text)) None operands.now }
{
    match operands.only_value(b"FORMAT")? {
        Some(text) => Ok(Some(name_of(text)?)),
        None => Ok(None),
    }
}

#[tactic(auto, unfolding(text_rows::specs::Operands::needed))]
fn classes(operands: &Operands<'_>) -> Result<Classes, u8>
    ensures { result ≡ needed (codes "CLASS") values.classes_of operands.now }
{
    match operands.only_value(b"CLASS")? {
        Some(text) => classes_of(text),
        None => Err(OPERAND_MISSING),
    }
}

#[tactic(auto, unfolding(crate::specs::Rows::control_row))]
fn control_row(operands: &Operands<'_>) -> Result<Macro, u8>
    ensures { result ≡ spec.control_row operands.now }
{
    let (qbytes, logs) = both(qbytes(operands), logs(operands))?;
    Ok(Macro::Control { qbytes, logs })
}

#[tactic(auto, unfolding(crate::specs::Rows::slot_part))]
fn slot_part(operands: &Operands<'_>) -> Result<(u16, u8), u8>
    ensures { result ≡ spec.slot_part operands.now }
{
    both(roots(operands), sectors(operands))
}

#[tactic(auto, unfolding(crate::specs::Rows::database_row))]
fn database_row(operands: &Operands<'_>) -> Result<Macro, u8>
    ensures { result ≡ spec.database_row operands.now }
{
    let (name, (roots, sectors)) = both(operands.needed_name(b"NAME"), slot_part(operands))?;
    Ok(Macro::Database {
        name,
        roots,
        sectors,
    })
}

#[tactic(auto, unfolding(crate::specs::Rows::place_part))]
fn place_part(operands: &Operands<'_>) -> Result<(Name, Option<Name>), u8>
    ensures { result ≡ spec.place_part operands.now }
{
    both(operands.needed_name(b"NAME"), parent(operands))
}

#[tactic(auto, unfolding(crate::specs::Rows::length_part))]
fn length_part(operands: &Operands<'_>) -> Result<(u8, u16), u8>
    ensures { result ≡ spec.length_part operands.now }
{
    both(key(operands), bytes(operands))
}

#[tactic(auto, unfolding(crate::specs::Rows::segment_row))]
fn segment_row(operands: &Operands<'_>) -> Result<Macro, u8>
    ensures { result ≡ spec.segment_row operands.now }
{
    let ((name, parent), (key, bytes)) = both(place_part(operands), length_part(operands))?;
    Ok(Macro::Segment {
        name,
        parent,
        key,
        bytes,
    })
}

#[tactic(auto, unfolding(crate::specs::Rows::application_row))]
fn application_row(operands: &Operands<'_>) -> Result<Macro, u8>
    ensures { result ≡ spec.application_row operands.now }
{
    let psb = operands.needed_name(b"PSB")?;
    Ok(Macro::Application { psb })
}

#[tactic(auto, unfolding(crate::specs::Rows::terminal_row))]
fn terminal_row(operands: &Operands<'_>) -> Result<Macro, u8>
    ensures { result ≡ spec.terminal_row operands.now }
{
    let (name, format) = both(operands.needed_name(b"LTERM"), format(operands))?;
    Ok(Macro::Terminal { name, format })
}

#[tactic(auto, unfolding(crate::specs::Rows::region_row))]
fn region_row(operands: &Operands<'_>) -> Result<Macro, u8>
    ensures { result ≡ spec.region_row operands.now }
{
    let classes = classes(operands)?;
    Ok(Macro::Region { classes })
}

#[tactic(auto, unfolding(crate::specs::Rows::code_part))]
fn code_part(operands: &Operands<'_>) -> Result<(Name, (SegmentKind, u8)), u8>
    ensures { result ≡ spec.code_part operands.now }
{
    both(operands.needed_name(b"CODE"), message_type(operands))
}

#[tactic(auto, unfolding(crate::specs::Rows::pad_part))]
fn pad_part(operands: &Operands<'_>) -> Result<(u16, bool), u8>
    ensures { result ≡ spec.pad_part operands.now }
{
    both(scratch_pad(operands), serial(operands))
}

#[tactic(auto, unfolding(crate::specs::Rows::segment_part))]
fn segment_part(operands: &Operands<'_>) -> Result<((u8, u16), (u16, bool)), u8>
    ensures { result ≡ spec.segment_part operands.now }
{
    both(
        both(segment_count(operands), segment_size(operands)),
        pad_part(operands),
    )
}

type Limits = ((u8, (u8, u16)), ((u16, u16), ((u8, u16), (u16, bool))));

#[tactic(auto, unfolding(crate::specs::Rows::limit_part))]
fn limit_part(operands: &Operands<'_>) -> Result<Limits, u8>
    ensures { result ≡ spec.limit_part operands.now }
{
    both(
        priorities(operands),
        both(limits(operands), segment_part(operands)),
    )
}

#[tactic(auto, unfolding(crate::specs::Rows::transaction_row))]
fn transaction_row(operands: &Operands<'_>) -> Result<Macro, u8>
    ensures { result ≡ spec.transaction_row operands.now }
{
    let (head, tail) = both(code_part(operands), limit_part(operands))?;
    let (code, (segment_kind, class)) = head;
    let ((normal_priority, (limit_priority, limit_count)), rest) = tail;
    let ((processing_count, statement_limit), (segments, (scratch_pad, serial))) = rest;
    let (segment_count, segment_size) = segments;
    Ok(Macro::Transaction(Transaction {
        code,
        segment_kind,
        class,
        normal_priority,
        limit_priority,
        limit_count,
        processing_count,
        statement_limit,
        segment_count,
        segment_size,
        scratch_pad,
        serial,
    }))
}

/// The macro of a kind that has these operands, or the lowest rule that their values break.
#[tactic(auto, unfolding(crate::specs::Rows::macro_row))]
pub fn row(kind: Kind, operands: &Operands<'_>) -> Result<Macro, u8>
    ensures { result ≡ spec.macro_row kind operands.now }
{
    match kind {
        Kind::Control => control_row(operands),
        Kind::Database => database_row(operands),
        Kind::Segment => segment_row(operands),
        Kind::Application => application_row(operands),
        Kind::Pcb => pcb_row(operands),
        Kind::Transaction => transaction_row(operands),
        Kind::Terminal => terminal_row(operands),
        Kind::Region => region_row(operands),
        Kind::End => Ok(Macro::End),
    }
}

/// The name that stands behind PROGRAM and a blank.
#[tactic(auto, unfolding(crate::specs::Rows::program_name))]
pub fn program_name(line: &[u8]) -> Result<Name, u8>
    ensures { result ≡ spec.program_name line.now }
{
    match split_at(b' ', line) {
        None | Some((_, [])) => Err(OPERAND_MISSING),
        Some((_, text)) => name_of(text),
    }
}

/// The name of an FMT that has these operands, or the lowest rule that they break.
#[tactic(auto, unfolding(crate::specs::Rows::read_format_name))]
pub fn format_name(operands: &Operands<'_>) -> Result<Name, u8>
    ensures { result ≡ spec.read_format_name operands.now }
{
    also(
        operands.needed_name(b"NAME"),
        operands.known_among(&[b"NAME"]),
    )
}
