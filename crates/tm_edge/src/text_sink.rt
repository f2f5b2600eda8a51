//! A sink that keeps what is written.
ghost use Rattle.std.specs.Prelude.{◌≡◌, ◌≤◌, [], Some, OnOk, OnErr};
ghost use Rattle.std.specs.Io.KnownBytes.{append_known};
ghost use Rattle.tm_edge.specs.Fault.{HasRisen};

use crate::{Failed, Sink};
use std::alloc::Global;
use std::marker::Model;
use tm_types::Bytes;

/// A sink that keeps what is written. It fails exactly where it finds no memory for it, and then keeps what it had.
#[derive(Debug, Drop)]
pub struct TextSink {
    text: Bytes,
    faults: u64,
}

impl Model for TextSink {
    ghost use Rattle.std.specs.Prelude.{◌<◌, ◌^◌};
    ghost use Rattle.tm_edge.specs.KeptText.{KeptText};

    ghost Value = { KeptText };

    ghost view = { λ s. record { text = s.text; faults = s.faults } };

    ghost invariant = { λ s. s.faults < 2 ^ 64 };
}

impl TextSink {
    /// A sink to which nothing was written. This takes no memory.
    pub fn new(alloc: Global) -> TextSink
        ensures text { result.text ≡ [] }
        ensures faults { result.faults ≡ 0 }
    {
        TextSink {
            text: Bytes::new(alloc),
            faults: 0,
        }
    }

    /// What was written.
    pub fn text(&self) -> &[u8]
        ensures { result.now ≡ self.now.text }
    {
        self.text.as_slice()
    }
}

impl Sink for TextSink {
    ghost written = { λ s. Some s.text };

    ghost faults = { λ s. s.faults };

    fn put(&mut self, bytes: &[u8]) -> Result<(), Failed>
        ensures put { OnOk result (Some self.new.text ≡ append_known (Some self.old.text) bytes.now) }
        ensures count { self.old.faults ≤ self.new.faults }
        ensures no_fault { OnOk result (self.new.faults ≡ self.old.faults) }
        ensures failed { OnErr result (HasRisen self.old.faults self.new.faults) }
        ensures none { OnErr result (self.new.text ≡ self.old.text) }
    {
        match self.text.append(bytes) {
            Ok(()) => Ok(()),
            Err(_) => {
                self.faults = self.faults.saturating_add(1);
                Err(Failed)
            }
        }
    }
}
