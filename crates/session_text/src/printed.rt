//! A text that is to be printed.
ghost use Rattle.std.specs.Prelude.{◌≡◌, ◌≤◌, ◌+◌, ◌∷◌, ◌↔◌, [], ◌++◌, length, take, IsTrue, OnOk, OnErr, decimal};

use itoa::Buffer;
use std::alloc::Global;
use std::marker::Model;
use tm_types::Memory;

/// The most bytes that a number takes.
pub const NUMBER_ROOM: usize = 20;

/// A text that is to be printed, with room for more of it that was taken beforehand.
#[derive(Debug, Drop)]
pub struct Printed {
    bytes: Vec<u8>,
    room: usize,
}

impl Model for Printed {
    ghost use Rattle.std.specs.Prelude.{◌≤◌, ◌+◌, vec_len, vec_capacity};
    ghost use Rattle.session_text.specs.PrintedText.{PrintedText};

    ghost Value = { PrintedText };

    ghost view = { λ p. record { text = p.bytes.items; room = p.room } };

    ghost invariant = { λ p. vec_len p.bytes + p.room ≤ vec_capacity p.bytes };
}

impl Printed {
    /// An empty text without room. This takes no memory.
    pub fn new(alloc: Global) -> Printed
        ensures text { result.text ≡ [] }
        ensures room { result.room ≡ 0 }
    {
        Printed {
            bytes: Vec::new(alloc),
            room: 0,
        }
    }

    /// The text so far.
    pub fn as_slice(&self) -> &[u8]
        ensures { result.now ≡ self.now.text }
    {
        &self.bytes
    }

    pub fn len(&self) -> usize
        ensures { result ≡ length self.now.text }
    {
        self.bytes.len()
    }

    pub fn is_empty(&self) -> bool
        ensures { IsTrue result ↔ (self.now.text ≡ []) }
    {
        self.bytes.is_empty()
    }

    /// Leaves nothing of the text. Its bytes become room.
    pub fn clear(&mut self)
        ensures text { self.new.text ≡ [] }
        ensures room { self.new.room ≡ self.old.room + length self.old.text }
    {
        self.room += self.bytes.len();
        self.bytes.clear();
    }

    /// Leaves the first bytes of the text, this many at most.
    pub fn truncate(&mut self, length: usize)
        ensures text { self.new.text ≡ take length self.old.text }
        ensures room { self.old.room ≤ self.new.room }
    {
        self.bytes.truncate(length);
    }

    /// Takes memory until there is room for this many bytes.
    pub fn make_room(&mut self, room: usize) -> Result<(), Memory>
        ensures text { self.new.text ≡ self.old.text }
        ensures ok { OnOk result (room ≤ self.new.room) }
        ensures more { self.old.room ≤ self.new.room }
        ensures err { OnErr result (self.new ≡ self.old) }
    {
        if self.room < room {
            self.bytes.try_reserve(room)?;
            self.room = room;
        }
        Ok(())
    }

    /// Adds these bytes at the end.
    pub fn push(&mut self, bytes: &[u8])
        requires { length bytes.now ≤ self.old.room }
        ensures text { self.new.text ≡ self.old.text ++ bytes.now }
        ensures room { self.new.room + length bytes.now ≡ self.old.room }
    {
        if self.bytes.extend_from_slice(bytes).is_err() {
            unreachable!();
        }
        self.room -= bytes.len();
    }

    /// Adds the number's decimal digits at the end, without zeros before them.
    pub fn push_number(&mut self, number: u64)
        requires { NUMBER_ROOM ≤ self.old.room }
        ensures text { self.new.text ≡ self.old.text ++ decimal number }
        ensures room { self.old.room ≤ self.new.room + NUMBER_ROOM }
    {
        let mut digits = Buffer::new();
        self.push(digits.format(number).as_bytes());
    }
}
