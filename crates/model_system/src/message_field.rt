//! What a segment of a format is made of.
ghost use Rattle.std.specs.Prelude.{◌≡◌, [], ◌∷◌, ◌++◌, OnOk, OnErr};

use std::alloc::Global;
use std::marker::Model;
use tm_types::{Bytes, Memory, Name};

/// At which end a value stands that is shorter than its place.
#[derive(Clone, Copy, Debug, PartialEq, Eq)]
pub enum Justify {
    /// At the left; a longer value keeps its front.
    Left,
    /// At the right; a longer value keeps its end.
    Right,
}

/// The part of a segment that belongs to a field of the screen.
#[derive(Debug, Drop)]
pub struct Source {
    /// The name of the field.
    pub name: Name,
    /// How many bytes of the segment it has, 1 to 80.
    pub width: u8,
    pub justify: Justify,
    /// The byte that fills the place beside a short value.
    pub fill: u8,
}

/// The operands of an MFLD.
#[derive(Debug, Drop)]
pub enum MessageField {
    /// SRC, LTH, JUST and FILL.
    Source(Source),
    /// LIT: a text that goes in with the segment, and isn't shown.
    Literal(Bytes),
}

/// An MFLD with the number of its line.
#[derive(Debug, Drop)]
pub struct MessageFieldLine {
    pub number: u32,
    pub content: MessageField,
}

/// The MFLDs of a segment, in order; seen as a list.
#[derive(Debug, Drop)]
pub struct MessageFields {
    items: Vec<MessageFieldLine>,
}

impl Model for MessageFields {
    ghost use Rattle.std.specs.Prelude.{List};
    ghost use Rattle.model_system.specs.declared.message_field.MessageFieldLine.{MessageFieldLine};

    ghost Value = { List MessageFieldLine };

    ghost view = { λ m. m.items.items };
}

impl MessageFields {
    /// No MFLDs. This takes no memory.
    pub fn new(alloc: Global) -> MessageFields
        ensures { result ≡ [] }
    {
        MessageFields {
            items: Vec::new(alloc),
        }
    }

    /// Adds an MFLD at the end.
    pub fn push(&mut self, line: MessageFieldLine) -> Result<(), Memory>
        ensures ok { OnOk result (self.new ≡ self.old ++ line ∷ []) }
        ensures err { OnErr result (self.new ≡ self.old) }
    {
        self.items.push(line)?;
        Ok(())
    }

    /// The MFLDs, in order.
    pub fn as_slice(&self) -> &[MessageFieldLine]
        ensures { result.now ≡ self.now }
    {
        &self.items
    }
}
