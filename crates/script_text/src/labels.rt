//! The labels of a program, with their places.
ghost use Rattle.std.specs.Prelude.{◌≡◌, ◌<◌, ◌^◌, ℕ, List, Some, None, IfOk, OnOk, length};
ghost use Rattle.script_text.specs.GoodStatement.{places_in};
ghost use Rattle.script_text.specs.Scripts as spec;

use crate::lines::is_last;
use crate::statements::label_in;
use std::alloc::Global;
use std::collections::BTreeMap;
use text_rows::{Pieces, Place, is_passed_over};
use tm_edge::Line;
use tm_types::{Memory, Name};

/// The labels of the lines up to ENDPROG, each with the place of its first LABEL. Lines that are
/// passed over have no place.
pub(crate) fn labels_of(alloc: Global, lines: &[Line]) -> Result<BTreeMap<Name, u32>, Memory>
    requires { length lines.now < 2 ^ 32 }
    ensures { IfOk result (λ labels. (name : List ℕ) → places_in labels name ≡ spec.label_in_lines 0 lines.now name) }
{
    let mut labels = BTreeMap::new(alloc);
    let mut place = 0;
    for line in lines {
        let text = line.bytes();
        if is_passed_over(text) {
            continue;
        }
        if is_last(text) {
            return Ok(labels);
        }
        if let Some(label) = label_in(Pieces::of(Place::WordStart, text)) {
            add_label(&mut labels, label, place)?;
        }
        place += 1;
    }
    Ok(labels)
}

/// Adds a label at its place, unless there is one of its name.
fn add_label(labels: &mut BTreeMap<Name, u32>, label: Name, place: u32) -> Result<(), Memory>
    ensures { OnOk result ((name : List ℕ) → places_in labels.new name ≡ spec.first_or (places_in labels.old name) (spec.label_here place (Some label) name)) }
{
    if !labels.contains_key(&label) {
        labels.insert(label, place)?;
    }
    Ok(())
}
