//! The values of a screen become segments.
ghost use Rattle.std.specs.Prelude.{◌≡◌, ◌++◌, ◌≤◌, [], ℕ, List, IfOk, IfSome, OnOk, IsTrue, length, map, not, find, reverse};
ghost use Rattle.std.specs.List.{list_all};
ghost use Rattle.std.specs.Option.{option_map, option_copied};
ghost use Rattle.tm_types.specs.Segment.{IsSegmentText, are_printable};
ghost use Rattle.model_system.specs.FormatRule.{KeepsRule, has_field};
ghost use Rattle.model_system.specs.ScreenInput as spec;
ghost use Rattle.model_system.specs.FittedValues.{fitted_value};
ghost use Rattle.model_system.specs.ValidFormat.{IsFormat};
ghost use Rattle.mfs_edit.specs.InputAnswers.{AnswersInput};
ghost use Rattle.mfs_edit.specs.Indexes.{IndexesFields, IndexesValues};
ghost use Rattle.mfs_edit.specs.Texts.{is_text, values_printable};

use crate::EditRefused;
use crate::fitting::set_fitted;
use crate::indexes::{field_named, fields_by_name, value_named, values_by_name};
use model_system::{
    DeviceField, FieldValue, Fields, Format, MessageField, MessageFieldLine, SegmentLine, Source,
};
use std::alloc::Global;
use std::collections::BTreeMap;
use tm_types::{Memory, Name, Segment, Segments};

/// The segments that the values of a screen make: one for each SEG of the input, its MFLDs joined.
///
/// A value is set into its MFLD's bytes by JUST and FILL; a field without a value is empty, and of
/// several values for one field the last holds. `UnknownField` has the first name that is no field.
/// There is a segment, and none is longer than a segment may be.
pub fn edit_in(alloc: Global, format: &Format, fields: &Fields) -> Result<Segments, EditRefused>
    requires rule { KeepsRule format.now }
    requires printable { IsTrue (values_printable fields.now) }
    ensures answers { AnswersInput result (spec.entered format.now fields.now) }
    ensures some { IfOk result (λ segments. 1 ≤ length segments) }
    ensures texts { IfOk result (λ segments. IsTrue (list_all is_text segments)) }
{
    entered(alloc, format, fields)
}

#[tactic(auto, unfolding(model_system::specs::ScreenInput::entered))]
fn entered(alloc: Global, format: &Format, fields: &Fields) -> Result<Segments, EditRefused>
    requires rule { KeepsRule format.now }
    requires printable { IsTrue (values_printable fields.now) }
    ensures answers { AnswersInput result (spec.entered format.now fields.now) }
    ensures valid { IsFormat format.now }
{
    let values = fields.as_slice();
    let places = fields_by_name(alloc, format.fields())?;
    if let Some(name) = unknown_field(&places, format.fields(), values) {
        return Err(EditRefused::UnknownField(name));
    }
    let segments = segments_of(alloc, format.input(), values)?;
    Ok(segments)
}

/// The first name of a value that is no field.
fn unknown_field(
    places: &BTreeMap<Name, usize>,
    fields: &[DeviceField],
    values: &[FieldValue],
) -> Option<Name>
    requires { IndexesFields places.now fields.now }
    ensures { result ≡ spec.unknown_field fields.now values.now }
{
    for value in values {
        if !is_field(places, fields, &value.name) {
            return Some(value.name);
        }
    }
    None
}

fn is_field(places: &BTreeMap<Name, usize>, fields: &[DeviceField], name: &Name) -> bool
    requires { IndexesFields places.now fields.now }
    ensures { result ≡ has_field name.now fields.now }
{
    match field_named(places, fields, name) {
        Some(_) => true,
        None => false,
    }
}

fn segments_of(
    alloc: Global,
    lines: &[SegmentLine],
    values: &[FieldValue],
) -> Result<Segments, Memory>
    requires { IsTrue (list_all (λ line. is_text (spec.field_texts_of values.now line.fields)) lines.now) }
    ensures { IfOk result (λ segments. segments ≡ map (λ line. spec.field_texts_of values.now line.fields) lines.now) }
{
    let places = values_by_name(alloc, values)?;
    let mut segments = Segments::new(alloc);
    for line in lines {
        let segment = segment_of(alloc, line.fields.as_slice(), &places, values)?;
        segments.push(segment)?;
    }
    Ok(segments)
}

/// The segment that the MFLDs of a SEG make.
fn segment_of(
    alloc: Global,
    lines: &[MessageFieldLine],
    places: &BTreeMap<Name, usize>,
    values: &[FieldValue],
) -> Result<Segment, Memory>
    requires places { IndexesValues places.now values.now }
    requires text { IsTrue (is_text (spec.field_texts_of values.now lines.now)) }
    ensures { IfOk result (λ segment. segment ≡ spec.field_texts_of values.now lines.now) }
{
    let mut text = Vec::new(alloc);
    for line in lines {
        add_text(&mut text, &line.content, places, values)?;
    }
    make_segment(alloc, &text)
}

/// The segment of a text that may be one.
#[tactic(auto, using(crate::proofs::Printable::text_held))]
fn make_segment(alloc: Global, text: &[u8]) -> Result<Segment, Memory>
    requires { IsTrue (is_text text.now) }
    ensures { IfOk result (λ segment. segment ≡ text.now) }
{
    tm_types::segment_of(alloc, text)
}

/// Adds what an MFLD makes of the values.
fn add_text(
    text: &mut Vec<u8>,
    content: &MessageField,
    places: &BTreeMap<Name, usize>,
    values: &[FieldValue],
) -> Result<(), Memory>
    requires { IndexesValues places.now values.now }
    ensures { OnOk result (text.new.items ≡ text.old.items ++ spec.field_text_of values.now content.now) }
{
    match content {
        MessageField::Source(source) => {
            let value = value_of(places, values, &source.name);
            add_fitted(text, source, value)
        }
        MessageField::Literal(literal) => text.extend_from_slice(literal.as_slice()),
    }
}

/// The last value of a field, or an empty one.
fn value_of<'a>(places: &BTreeMap<Name, usize>, values: &'a [FieldValue], name: &Name) -> &'a [u8]
    requires { IndexesValues places.now values.now }
    ensures { result.now ≡ spec.field_value_of values.now name.now }
{
    match value_named(places, values, name) {
        Some(value) => value.text.as_slice(),
        None => &[],
    }
}

#[tactic(auto, using(crate::proofs::Setting::resized))]
fn add_fitted(text: &mut Vec<u8>, source: &Source, value: &[u8]) -> Result<(), Memory>
    ensures { OnOk result (text.new.items ≡ text.old.items ++ fitted_value source.now.justify source.now.fill source.now.width value.now) }
{
    let at = text.len();
    text.resize(at + source.width as usize, source.fill)?;
    set_fitted(&mut text[at..], source.justify, source.fill, value);
    Ok(())
}
