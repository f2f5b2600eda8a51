//! Fields and values by their names.
ghost use Rattle.std.specs.Prelude.{◌≡◌, ◌<◌, ℕ, List, IfOk, IfSome, reverse, find, is_some, length};
ghost use Rattle.std.specs.Option.{option_copied};
ghost use Rattle.std.specs.Str.{bytes_eq};
ghost use Rattle.mfs_edit.specs.Indexes as spec;

use model_system::{DeviceField, FieldValue};
use std::alloc::Global;
use std::collections::BTreeMap;
use tm_types::{Memory, Name};

/// The place of each name among the fields.
pub(crate) fn fields_by_name(
    alloc: Global,
    fields: &[DeviceField],
) -> Result<BTreeMap<Name, usize>, Memory>
    ensures { IfOk result (λ places. spec.IndexesFields places fields.now) }
{
    let mut places = BTreeMap::new(alloc);
    for (index, field) in fields.iter().enumerate() {
        places.insert(field.name, index)?;
    }
    Ok(places)
}

/// The place of the last value of each name.
pub(crate) fn values_by_name(
    alloc: Global,
    values: &[FieldValue],
) -> Result<BTreeMap<Name, usize>, Memory>
    ensures { IfOk result (λ places. spec.IndexesValues places values.now) }
{
    let mut places = BTreeMap::new(alloc);
    for (index, value) in values.iter().enumerate() {
        places.insert(value.name, index)?;
    }
    Ok(places)
}

/// The field with this name.
pub(crate) fn field_named<'a>(
    places: &BTreeMap<Name, usize>,
    fields: &'a [DeviceField],
    name: &Name,
) -> Option<&'a DeviceField>
    requires { spec.IndexesFields places.now fields.now }
    ensures { option_copied result ≡ find (λ field. bytes_eq field.name name.now) (reverse fields.now) }
{
    match places.get(name) {
        Some(place) => fields.get(*place),
        None => None,
    }
}

/// The last value with this name.
pub(crate) fn value_named<'a>(
    places: &BTreeMap<Name, usize>,
    values: &'a [FieldValue],
    name: &Name,
) -> Option<&'a FieldValue>
    requires { spec.IndexesValues places.now values.now }
    ensures { option_copied result ≡ find (λ value. bytes_eq value.name name.now) (reverse values.now) }
{
    match places.get(name) {
        Some(place) => values.get(*place),
        None => None,
    }
}
