//! The bytes that a reader of lines has taken and not yet served.
ghost use Rattle.std.specs.Prelude.{◌≤◌, vec_len};

use crate::steps::{move_to_front, take_behind};
use crate::{Failed, Source};
use std::alloc::{AllocError, Global};

/// How many bytes the buffer has room for, twice as many as a line has at most.
pub const CAPACITY: usize = 8192;

/// The bytes that were taken from a source and not yet served. They stand from `start` to `end`.
#[derive(Debug, Drop)]
pub struct Buffer {
    bytes: Vec<u8>,
    start: usize,
    end: usize,
    ghost ordered: { start ≤ end },
    ghost within: { end ≤ vec_len bytes },
}

impl Buffer {
    ghost use Rattle.std.specs.Prelude.{◌≡◌, ◌+◌, ◌<◌, ◌≤◌, ℕ, [], length, take, drop, vec_len, OnOk, OnErr, IfOk};
    ghost use Rattle.std.specs.Io.KnownBytes.{prepend_known, IsAtEnd};
    ghost use Rattle.tm_edge.specs.Fault.{HasRisen};
    ghost use Rattle.tm_edge.specs.Buffer.{held_bytes};

    pub fn new(alloc: Global) -> Buffer
        ensures { held_bytes result ≡ [] }
    {
        Buffer {
            bytes: Vec::new(alloc),
            start: 0,
            end: 0,
        }
    }

    /// The bytes that are held.
    pub fn held(&self) -> &[u8]
        ensures { result.now ≡ held_bytes self.now }
    {
        &self.bytes[self.start..self.end]
    }

    /// Makes the room that the buffer needs, once.
    pub fn reserve(&mut self) -> Result<(), AllocError>
        ensures ok { OnOk result (CAPACITY ≤ vec_len self.new.bytes) }
        ensures held { held_bytes self.new ≡ held_bytes self.old }
    {
        if self.bytes.len() < CAPACITY {
            self.bytes.resize(CAPACITY, 0)?;
        }
        Ok(())
    }

    /// Drops the first `n` bytes that are held.
    pub fn skip(&mut self, n: usize)
        requires { n ≤ length (held_bytes self.old) }
        ensures { held_bytes self.new ≡ drop n (held_bytes self.old) }
    {
        self.start += n;
    }

    // Moves the bytes that are held to the front.
    fn compact(&mut self)
        ensures held { held_bytes self.new ≡ held_bytes self.old }
        ensures front { self.new.start ≡ 0 }
        ensures room { vec_len self.new.bytes ≡ vec_len self.old.bytes }
    {
        move_to_front(&mut self.bytes, self.start, self.end);
        self.end -= self.start;
        self.start = 0;
    }

    /// Takes bytes from the source behind those that are held, and answers how many.
    ///
    /// None are taken only at the end of the source. A fault leaves all as it was.
    pub fn fill<S: Source>(&mut self, source: &mut S) -> Result<usize, Failed>
        requires { length (held_bytes self.old) < vec_len self.old.bytes }
        ensures told { prepend_known (held_bytes self.new) (S.left source.new) ≡ prepend_known (held_bytes self.old) (S.left source.old) }
        ensures more { IfOk result (λ n. length (held_bytes self.new) ≡ length (held_bytes self.old) + n) }
        ensures front { take (length (held_bytes self.old)) (held_bytes self.new) ≡ held_bytes self.old }
        ensures ending { IfOk result (λ n. n ≡ 0 → IsAtEnd (S.left source.new)) }
        ensures room { vec_len self.new.bytes ≡ vec_len self.old.bytes }
        ensures kept { OnErr result (held_bytes self.new ≡ held_bytes self.old) }
        ensures count { S.faults source.old ≤ S.faults source.new }
        ensures no_fault { OnOk result (S.faults source.new ≡ S.faults source.old) }
        ensures failed { OnErr result (HasRisen (S.faults source.old) (S.faults source.new)) }
    {
        self.compact();
        match take_behind(&mut self.bytes, self.end, source) {
            Ok(n) => {
                self.end += n;
                Ok(n)
            }
            Err(fault) => Err(fault),
        }
    }
}
