//! The segments of a reply become a page.
ghost use Rattle.std.specs.Prelude.{◌≡◌, ◌+◌, ◌-◌, ◌≤◌, ◌++◌, ◌∷◌, [], List, ℕ, None, IfOk, IsTrue, length, take, drop, slice_set};
ghost use Rattle.std.specs.List.{list_all, slice_index_or};
ghost use Rattle.model_system.specs.FormatRule.{KeepsRule, clashing_field};
ghost use Rattle.model_system.specs.FittedValues.{fitted_value};
ghost use Rattle.model_system.specs.Pages.{IsPage};
ghost use Rattle.model_system.specs.ScreenPage as spec;
ghost use Rattle.model_system.specs.ScreenPage.{Piece};
ghost use Rattle.model_system.specs.ValidFormat.{is_on_page};
ghost use Rattle.model_system.specs.declared.device_field.DeviceField.{DeviceField};
ghost use Rattle.mfs_edit.specs.Indexes.{IndexesFields};
ghost use Rattle.mfs_edit.specs.Pieces.{OnPage, left_by_field, piece_of, screen_row_with};

use crate::fitting::set_fitted;
use crate::indexes::{field_named, fields_by_name};
use model_system::{DeviceField, Format, MessageField, MessageFieldLine, Page, Source};
use std::alloc::Global;
use std::collections::BTreeMap;
use tm_types::{Memory, Name, Segments};

/// The page that shows the segments of a reply.
///
/// The i-th segment meets the i-th SEG of the output; each of its MFLDs takes its bytes from the front
/// of what is left, and they are set into its field by JUST and FILL. Literals and segments past the
/// last SEG aren't shown; a field that no MFLD reaches is blank.
#[tactic(auto, unfolding(model_system::specs::ScreenPage::shown_page))]
pub fn edit_out(alloc: Global, format: &Format, segments: &Segments) -> Result<Page, Memory>
    requires { KeepsRule format.now }
    ensures { IfOk result (λ page. page ≡ spec.shown_page format.now segments.now) }
{
    let places = fields_by_name(alloc, format.fields())?;
    let mut rows = blank_rows(alloc)?;
    for (index, line) in format.output().iter().enumerate() {
        let Some(segment) = segments.get(index) else {
            return Ok(Page::of(rows));
        };
        show_segment(
            &mut rows,
            format.fields(),
            &places,
            line.fields.as_slice(),
            segment.text(),
        );
    }
    Ok(Page::of(rows))
}

/// The rows of a blank page.
fn blank_rows(alloc: Global) -> Result<Vec<[u8; 80]>, Memory>
    ensures page { IfOk result (λ rows. IsPage rows.items) }
    ensures blank { IfOk result (λ rows. (fields : List DeviceField) → rows.items ≡ spec.page_of fields []) }
{
    Ok(Vec::from_array(alloc, [[b' '; 80]; 24])?)
}

/// Shows a segment by the MFLDs of its SEG, on a page that shows some pieces.
fn show_segment(
    rows: &mut Vec<[u8; 80]>,
    fields: &[DeviceField],
    places: &BTreeMap<Name, usize>,
    lines: &[MessageFieldLine],
    text: &[u8],
)
    requires rule { clashing_field [] fields.now ≡ None }
    requires on_page { IsTrue (list_all is_on_page fields.now) }
    requires places { IndexesFields places.now fields.now }
    requires page { IsPage rows.old.items }
    ensures page { IsPage rows.new.items }
    ensures shown { (done : List Piece) → rows.old.items ≡ spec.page_of fields.now done → rows.new.items ≡ spec.page_of fields.now (done ++ spec.pieces_of lines.now text.now) }
{
    let mut rest = text;
    for line in lines {
        rest = show_field(rows, fields, places, &line.content, rest);
    }
}

/// Shows the piece of an MFLD, on a page that shows some pieces, and answers what it leaves of the text.
fn show_field<'a>(
    rows: &mut Vec<[u8; 80]>,
    fields: &[DeviceField],
    places: &BTreeMap<Name, usize>,
    content: &MessageField,
    text: &'a [u8],
) -> &'a [u8]
    requires rule { clashing_field [] fields.now ≡ None }
    requires on_page { IsTrue (list_all is_on_page fields.now) }
    requires places { IndexesFields places.now fields.now }
    requires page { IsPage rows.old.items }
    ensures rest { result.now ≡ left_by_field content.now text.now }
    ensures page { IsPage rows.new.items }
    ensures shown { (done : List Piece) → rows.old.items ≡ spec.page_of fields.now done → rows.new.items ≡ spec.page_of fields.now (done ++ piece_of content.now text.now) }
{
    match content {
        MessageField::Source(source) => {
            let (piece, behind) = cut(text, source.width);
            show_piece(rows, fields, places, source, piece);
            behind
        }
        MessageField::Literal(_) => text,
    }
}

/// The front of a text of so many bytes, and what is behind it.
fn cut(text: &[u8], width: u8) -> (&[u8], &[u8])
    ensures front { result.0.now ≡ take width text.now }
    ensures behind { result.1.now ≡ drop width text.now }
{
    text.split_at(usize::from(width).min(text.len()))
}

/// Sets a piece into its field, on a page that shows some pieces.
fn show_piece(
    rows: &mut Vec<[u8; 80]>,
    fields: &[DeviceField],
    places: &BTreeMap<Name, usize>,
    source: &Source,
    text: &[u8],
)
    requires rule { clashing_field [] fields.now ≡ None }
    requires on_page { IsTrue (list_all is_on_page fields.now) }
    requires places { IndexesFields places.now fields.now }
    requires page { IsPage rows.old.items }
    ensures page { IsPage rows.new.items }
    ensures shown { (done : List Piece) → rows.old.items ≡ spec.page_of fields.now done → rows.new.items ≡ spec.page_of fields.now (done ++ (record { source = source.now; text = text.now }) ∷ []) }
{
    match field_named(places, fields, &source.name) {
        Some(field) => set_piece(rows, field, source, text),
        None => {}
    }
}

/// Sets a piece into a field of the page.
fn set_piece(rows: &mut Vec<[u8; 80]>, field: &DeviceField, source: &Source, text: &[u8])
    requires field { OnPage field.now }
    requires page { IsPage rows.old.items }
    ensures { rows.new.items ≡ slice_set rows.old.items (field.now.row - 1) (screen_row_with field.now (fitted_value source.now.justify source.now.fill field.now.width text.now) (slice_index_or rows.old.items (field.now.row - 1) [])) }
{
    let row = usize::from(field.row) - 1;
    set_field(&mut rows[row], field, source, text);
}

/// Sets a piece into a field's columns of a row.
fn set_field(row: &mut [u8; 80], field: &DeviceField, source: &Source, text: &[u8])
    requires { OnPage field.now }
    ensures { row.new ≡ screen_row_with field.now (fitted_value source.now.justify source.now.fill field.now.width text.now) row.old }
{
    let at = usize::from(field.column) - 1;
    let end = at + usize::from(field.width);
    set_fitted(&mut row[at..end], source.justify, source.fill, text);
}
