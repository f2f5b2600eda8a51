//! The last values that field lines give.
ghost use Rattle.std.specs.Prelude.{◌≡◌, ◌∷◌, ◌++◌, [], IfOk, OnOk, OnErr, IsTrue, length};
ghost use Rattle.std.specs.List.{list_any};
ghost use Rattle.std.specs.Str.{bytes_eq};
ghost use Rattle.model_system.specs.declared.fields.FieldValue.{FieldValue};
ghost use Rattle.model_session.specs.Blocks as spec;
ghost use Rattle.mfs_edit.specs.Texts.{values_printable};
ghost use Rattle.tm_types.specs.Segment.{are_printable};
ghost use Rattle.session_lines.specs.LastValues.{is_kept, values_of};

use indexmap::IndexMap;
use model_system::{FieldValue, Fields};
use std::alloc::Global;
use std::marker::Model;
use tm_types::{Bytes, Memory, Name};

/// How many names have a value that is kept: one more than a screen has places.
const KEPT_NAMES: usize = 1921;

/// The last values for the first 1,921 names that come, in the order in which they came first; seen as
/// a list. Their bytes are printable.
#[derive(Debug, Drop)]
pub struct LastValues {
    values: IndexMap<Name, Bytes>,
}

impl Model for LastValues {
    ghost use Rattle.std.specs.Prelude.{List, length, ◌≤◌, IsTrue};
    ghost use Rattle.model_system.specs.declared.fields.FieldValue.{FieldValue};
    ghost use Rattle.mfs_edit.specs.Texts.{values_printable};
    ghost use Rattle.session_lines.specs.LastValues.{values_of};

    ghost Value = { List FieldValue };

    ghost view = { λ v. values_of v.values.entries };

    ghost invariant = { λ v. IsTrue (values_printable (values_of v.values.entries)) × (length v.values.entries ≤ 1921) };
}

impl LastValues {
    /// No values. This takes no memory.
    pub(crate) fn new(alloc: Global) -> LastValues
        ensures { result ≡ [] }
    {
        LastValues {
            values: IndexMap::new(alloc),
        }
    }

    /// How many values there are.
    #[tactic(auto, using(crate::proofs::Latest::as_many))]
    fn count(&self) -> usize
        ensures { result ≡ length self.now }
    {
        self.values.len()
    }

    /// Whether there is a value for this name.
    #[tactic(auto, using(crate::proofs::Latest::has_entry))]
    fn has(&self, name: &Name) -> bool
        ensures { result ≡ list_any (λ value. bytes_eq value.name name.now) self.now }
    {
        self.values.contains_key(name)
    }

    /// Whether a value for this name is kept.
    fn keeps(&self, name: &Name) -> bool
        ensures { result ≡ is_kept name.now self.now }
    {
        self.has(name) || self.count() < KEPT_NAMES
    }

    /// Puts a value in the place of the one for the same name, or at the end. Where there are values
    /// for 1,921 other names it is left, and takes no memory.
    #[tactic(auto, using(crate::proofs::Latest::latest_value))]
    pub(crate) fn put(&mut self, alloc: Global, name: Name, text: &[u8]) -> Result<(), Memory>
        requires { IsTrue (are_printable text.now) }
        ensures ok { OnOk result (self.new ≡ spec.first_values (spec.put_value (record { name = name; text = text.now }) self.old)) }
        ensures err { OnErr result (self.new ≡ self.old) }
        ensures full { OnErr result (IsTrue (is_kept name self.old)) }
    {
        if !self.keeps(&name) {
            return Ok(());
        }
        let text = Bytes::copied(alloc, text)?;
        self.values.insert(name, text)?;
        Ok(())
    }

    /// The values, copied.
    pub(crate) fn copied(&self, alloc: Global) -> Result<Fields, Memory>
        ensures values { IfOk result (λ copy. copy ≡ self.now) }
        ensures printable { IfOk result (λ copy. IsTrue (values_printable copy)) }
    {
        copied_values(alloc, &self.values)
    }
}

fn copied_values(alloc: Global, values: &IndexMap<Name, Bytes>) -> Result<Fields, Memory>
    ensures { IfOk result (λ copy. copy ≡ values_of values.now.entries) }
{
    let mut copy = Fields::new(alloc);
    for (name, text) in values.iter() {
        add_value(alloc, &mut copy, *name, text.as_slice())?;
    }
    Ok(copy)
}

/// Adds a value at the end.
fn add_value(alloc: Global, values: &mut Fields, name: Name, text: &[u8]) -> Result<(), Memory>
    ensures { OnOk result (values.new ≡ values.old ++ (record { name = name; text = text.now }) ∷ []) }
{
    let text = Bytes::copied(alloc, text)?;
    values.push(FieldValue { name, text })
}
