//! The table of a format's macros.
ghost use Rattle.std.specs.Prelude.{◌≡◌, ◌+◌, ◌≤◌, Ok, Err, IfOk, IsTrue, MatchResult, codes};
ghost use Rattle.text_rows.specs.LowestRule.{both};
ghost use Rattle.text_rows.specs.Numbers.{number_between};
ghost use Rattle.text_rows.specs.Operands.{needed, or_as};
ghost use Rattle.model_system.specs.declared.message_field.Justify.TheVariants.{Left};
ghost use Rattle.model_system.specs.ValidFormat.{is_fill, is_literal, is_message_field};
ghost use Rattle.mfs_text.specs.GoodLine.{is_good};
ghost use Rattle.mfs_text.specs.Values as values;
ghost use Rattle.mfs_text.specs.Rows as spec;

use crate::kinds::{Kind, is_literal};
use crate::lines::{Direction, FormatLine};
use crate::values::{direction_of, fill_of, justify_of, literal_of, place_of};
use model_system::{DeviceField, Justify, MessageField, MessageFieldLine, Source};
use std::alloc::Global;
use text_rows::rules::{OPERAND_MISSING, OUT_OF_RANGE};
use text_rows::{Operands, both, byte_between};
use tm_types::{Bytes, Memory, Name};

#[tactic(auto, unfolding(text_rows::specs::Operands::needed))]
fn place(operands: &Operands<'_>) -> Result<(u8, u8), u8>
    ensures value { result ≡ needed (codes "POS") values.screen_place_of operands.now }
    ensures row { IfOk result (λ place. (1 ≤ place.0) × (place.0 ≤ 24)) }
    ensures column { IfOk result (λ place. (1 ≤ place.1) × (place.1 ≤ 80)) }
{
    match operands.only_value(b"POS")? {
        Some(text) => place_of(text),
        None => Err(OPERAND_MISSING),
    }
}

#[tactic(auto, unfolding(text_rows::specs::Operands::needed))]
fn width(operands: &Operands<'_>) -> Result<u8, u8>
    ensures value { result ≡ needed (codes "LTH") (number_between 1 80) operands.now }
    ensures within { IfOk result (λ width. (1 ≤ width) × (width ≤ 80)) }
{
    match operands.only_value(b"LTH")? {
        Some(text) => byte_between(1, 80, text),
        None => Err(OPERAND_MISSING),
    }
}

#[tactic(auto, unfolding(text_rows::specs::Operands::needed))]
fn direction(operands: &Operands<'_>) -> Result<Direction, u8>
    ensures { result ≡ needed (codes "TYPE") values.direction_of operands.now }
{
    match operands.only_value(b"TYPE")? {
        Some(text) => direction_of(text),
        None => Err(OPERAND_MISSING),
    }
}

#[tactic(auto, unfolding(text_rows::specs::Operands::or_as))]
fn justify(operands: &Operands<'_>) -> Result<Justify, u8>
    ensures { result ≡ or_as (codes "JUST") values.justify_of Left operands.now }
{
    match operands.only_value(b"JUST")? {
        Some(text) => justify_of(text),
        None => Ok(Justify::Left),
    }
}

#[tactic(auto, unfolding(text_rows::specs::Operands::or_as))]
fn fill(operands: &Operands<'_>) -> Result<u8, u8>
    ensures value { result ≡ or_as (codes "FILL") values.fill_of 32 operands.now }
    ensures valid { IfOk result (λ byte. IsTrue (is_fill byte)) }
{
    match operands.only_value(b"FILL")? {
        Some(text) => fill_of(text),
        None => Ok(b' '),
    }
}

/// The place and the width of a field: rule 6 where it doesn't end in its row.
fn within_row(extent: Result<((u8, u8), u8), u8>) -> Result<((u8, u8), u8), u8>
    requires { IfOk extent (λ e. (e.0.1 ≤ 80) × (e.1 ≤ 80)) }
    ensures value { result ≡ spec.within_row extent }
    ensures kept { IfOk result (λ e. extent ≡ Ok e) }
    ensures within { IfOk result (λ e. e.0.1 + e.1 ≤ 81) }
{
    let ((row, column), width) = extent?;
    if column + width <= 81 {
        Ok(((row, column), width))
    } else {
        Err(OUT_OF_RANGE)
    }
}

#[tactic(auto, unfolding(crate::specs::Rows::extent_part))]
fn extent_part(operands: &Operands<'_>) -> Result<((u8, u8), u8), u8>
    ensures value { result ≡ spec.extent_part operands.now }
    ensures row { IfOk result (λ e. (1 ≤ e.0.0) × (e.0.0 ≤ 24)) }
    ensures least { IfOk result (λ e. (1 ≤ e.0.1) × (1 ≤ e.1)) }
    ensures within { IfOk result (λ e. e.0.1 + e.1 ≤ 81) }
{
    within_row(both(place(operands), width(operands)))
}

#[tactic(auto, unfolding(crate::specs::Rows::field_row))]
fn field_row(number: u32, operands: &Operands<'_>) -> Result<FormatLine, u8>
    ensures value { result ≡ spec.field_row number operands.now }
    ensures valid { IfOk result (λ line. IsTrue (is_good line)) }
{
    let (name, extent) = both(operands.needed_name(b"NAME"), extent_part(operands))?;
    let ((row, column), width) = extent;
    Ok(FormatLine::Field(DeviceField {
        number,
        name,
        row,
        column,
        width,
    }))
}

#[tactic(auto, unfolding(crate::specs::Rows::message_row))]
fn message_row(operands: &Operands<'_>) -> Result<FormatLine, u8>
    ensures value { result ≡ spec.message_row operands.now }
    ensures valid { IfOk result (λ line. IsTrue (is_good line)) }
{
    let direction = direction(operands)?;
    Ok(FormatLine::Message(direction))
}

#[tactic(auto, unfolding(text_rows::specs::Operands::needed))]
fn literal<'a>(operands: &Operands<'a>) -> Result<&'a [u8], u8>
    ensures value { MatchResult result (λ text. needed (codes "LIT") values.literal_of operands.now ≡ Ok text.now) (λ rule. needed (codes "LIT") values.literal_of operands.now ≡ Err rule) }
    ensures valid { IfOk result (λ text. IsTrue (is_literal text.now)) }
{
    match operands.only_value(b"LIT")? {
        Some(text) => literal_of(text),
        None => Err(OPERAND_MISSING),
    }
}

fn literal_row(alloc: Global, operands: &Operands<'_>) -> Result<Result<MessageField, u8>, Memory>
    ensures value { IfOk result (λ read. read ≡ spec.literal_made (needed (codes "LIT") values.literal_of operands.now)) }
    ensures valid { IfOk result (λ read. IfOk read (λ field. IsTrue (is_message_field field))) }
{
    match literal(operands) {
        Ok(text) => Ok(Ok(MessageField::Literal(Bytes::copied(alloc, text)?))),
        Err(rule) => Ok(Err(rule)),
    }
}

#[tactic(auto, unfolding(crate::specs::Rows::source_part))]
fn source_part(operands: &Operands<'_>) -> Result<(Name, u8), u8>
    ensures value { result ≡ spec.source_part operands.now }
    ensures within { IfOk result (λ part. (1 ≤ part.1) × (part.1 ≤ 80)) }
{
    both(operands.needed_name(b"SRC"), width(operands))
}

#[tactic(auto, unfolding(crate::specs::Rows::fitting_part))]
fn fitting_part(operands: &Operands<'_>) -> Result<(Justify, u8), u8>
    ensures value { result ≡ spec.fitting_part operands.now }
    ensures valid { IfOk result (λ part. IsTrue (is_fill part.1)) }
{
    both(justify(operands), fill(operands))
}

fn source_row(operands: &Operands<'_>) -> Result<MessageField, u8>
    ensures value { result ≡ spec.source_made (both (spec.source_part operands.now) (spec.fitting_part operands.now)) }
    ensures valid { IfOk result (λ field. IsTrue (is_message_field field)) }
{
    let ((name, width), (justify, fill)) = both(source_part(operands), fitting_part(operands))?;
    Ok(MessageField::Source(Source {
        name,
        width,
        justify,
        fill,
    }))
}

#[tactic(auto, unfolding(crate::specs::Rows::message_field_row))]
fn message_field_row(
    alloc: Global,
    operands: &Operands<'_>,
) -> Result<Result<MessageField, u8>, Memory>
    ensures value { IfOk result (λ read. read ≡ spec.message_field_row operands.now) }
    ensures valid { IfOk result (λ read. IfOk read (λ field. IsTrue (is_message_field field))) }
{
    if is_literal(operands) {
        literal_row(alloc, operands)
    } else {
        Ok(source_row(operands))
    }
}

fn numbered(number: u32, field: Result<MessageField, u8>) -> Result<FormatLine, u8>
    requires { IfOk field (λ content. IsTrue (is_message_field content)) }
    ensures value { result ≡ spec.numbered_field number field }
    ensures valid { IfOk result (λ line. IsTrue (is_good line)) }
{
    let content = field?;
    Ok(FormatLine::MessageField(MessageFieldLine { number, content }))
}

/// The line of a kind that has these operands and this number, or the lowest rule that their values
/// break.
#[tactic(auto, unfolding(crate::specs::Rows::format_macro_row))]
pub(crate) fn row(
    alloc: Global,
    kind: Kind,
    number: u32,
    operands: &Operands<'_>,
) -> Result<Result<FormatLine, u8>, Memory>
    ensures value { IfOk result (λ read. read ≡ spec.format_macro_row kind number operands.now) }
    ensures valid { IfOk result (λ read. IfOk read (λ line. IsTrue (is_good line))) }
{
    match kind {
        Kind::Field => Ok(field_row(number, operands)),
        Kind::Message => Ok(message_row(operands)),
        Kind::Segment => Ok(Ok(FormatLine::Segment(number))),
        Kind::MessageField => Ok(numbered(number, message_field_row(alloc, operands)?)),
        Kind::End => Ok(Ok(FormatLine::End)),
    }
}
