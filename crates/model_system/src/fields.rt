//! The values that a screen sends.
ghost use Rattle.std.specs.Prelude.{◌≡◌, [], ◌∷◌, ◌++◌, OnOk, OnErr};

use std::alloc::Global;
use std::marker::Model;
use tm_types::{Bytes, Memory, Name};

/// A value under the name of a field.
#[derive(Debug, Drop)]
pub struct FieldValue {
    pub name: Name,
    pub text: Bytes,
}

/// Values of fields, in the order in which they were given; seen as a list. A field may stand in it
/// more than once.
#[derive(Debug, Drop)]
pub struct Fields {
    items: Vec<FieldValue>,
}

impl Model for Fields {
    ghost use Rattle.std.specs.Prelude.{List};
    ghost use Rattle.model_system.specs.declared.fields.FieldValue.{FieldValue};

    ghost Value = { List FieldValue };

    ghost view = { λ f. f.items.items };
}

impl Fields {
    /// No values. This takes no memory.
    pub fn new(alloc: Global) -> Fields
        ensures { result ≡ [] }
    {
        Fields {
            items: Vec::new(alloc),
        }
    }

    /// Adds a value at the end.
    pub fn push(&mut self, value: FieldValue) -> Result<(), Memory>
        ensures ok { OnOk result (self.new ≡ self.old ++ value ∷ []) }
        ensures err { OnErr result (self.new ≡ self.old) }
    {
        self.items.push(value)?;
        Ok(())
    }

    /// The values, in order.
    pub fn as_slice(&self) -> &[FieldValue]
        ensures { result.now ≡ self.now }
    {
        &self.items
    }
}
