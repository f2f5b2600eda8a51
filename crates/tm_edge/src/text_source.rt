//! A source over a text in memory.
ghost use Rattle.std.specs.Prelude.{◌≡◌, ◌≤◌, ◌<◌, min, Some, length, take, IfOk, IsOk};
ghost use Rattle.std.specs.Io.KnownBytes.{prepend_known, IsAtEnd};

use crate::{Failed, Source};
use std::marker::Model;
use tm_types::Bytes;

/// A source over a text in memory, which never fails. It is seen as the bytes that are left.
#[derive(Debug, Drop)]
pub struct TextSource {
    text: Bytes,
    at: usize,
}

impl Model for TextSource {
    ghost use Rattle.std.specs.Prelude.{◌≤◌, ℕ, List, length, drop};

    ghost Value = { List ℕ };

    ghost view = { λ s. drop s.at s.text };

    ghost invariant = { λ s. s.at ≤ length s.text };
}

impl TextSource {
    /// A source of this text. This takes no memory.
    pub fn new(text: Bytes) -> TextSource
        ensures { result ≡ text }
    {
        TextSource { text, at: 0 }
    }
}

impl Source for TextSource {
    ghost left = { λ s. Some s };

    ghost faults = { λ _. 0 };

    fn take(&mut self, into: &mut [u8]) -> Result<usize, Failed>
        ensures within { IfOk result (λ n. n ≤ length into.new) }
        ensures taken { IfOk result (λ n. Some self.old ≡ prepend_known (take n into.new) (Some self.new)) }
        ensures ending { IfOk result (λ n. n ≡ 0 → 0 < length into.new → IsAtEnd (Some self.new)) }
        ensures never_fails { IsOk result }
        // It gives as much as the buffer takes.
        ensures filled { IfOk result (λ n. n ≡ min (length into.new) (length self.old)) }
    {
        let n = into.len().min(self.text.len() - self.at);
        into[..n].copy_from_slice(&self.text.as_slice()[self.at..self.at + n]);
        self.at += n;
        Ok(n)
    }
}
