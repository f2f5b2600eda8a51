//! Texts that a line of a script names.
ghost use Rattle.std.specs.Prelude.{◌≡◌, [], ◌∷◌, ◌++◌, length, slice_get, OnOk, OnErr};
ghost use Rattle.std.specs.Option.{option_copied};

use crate::Variable;
use std::alloc::Global;
use std::marker::Model;
use tm_types::{Bytes, Memory};

/// A text that a line of a script names.
#[derive(Debug, Drop)]
pub enum Text {
    /// The text of a variable.
    Variable(Variable),
    /// The two characters of the last status.
    Status,
    /// These bytes.
    Literal(Bytes),
}

/// The texts that a line names, seen as a list.
#[derive(Debug, Drop)]
pub struct Texts {
    items: Vec<Text>,
}

impl Model for Texts {
    ghost use Rattle.std.specs.Prelude.{List};
    ghost use Rattle.model_system.specs.declared.text.Text.{Text};

    ghost Value = { List Text };

    ghost view = { λ t. t.items.items };
}

impl Texts {
    /// No texts. This takes no memory.
    pub fn new(alloc: Global) -> Texts
        ensures { result ≡ [] }
    {
        Texts {
            items: Vec::new(alloc),
        }
    }

    /// Adds a text at the end.
    pub fn push(&mut self, text: Text) -> Result<(), Memory>
        ensures ok { OnOk result (self.new ≡ self.old ++ text ∷ []) }
        ensures err { OnErr result (self.new ≡ self.old) }
    {
        self.items.push(text)?;
        Ok(())
    }

    /// How many texts there are.
    pub fn len(&self) -> usize
        ensures { result ≡ length self.now }
    {
        self.items.len()
    }

    /// The texts, in order.
    pub fn as_slice(&self) -> &[Text]
        ensures { result.now ≡ self.now }
    {
        &self.items
    }
}
