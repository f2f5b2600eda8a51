//! A source over bytes in memory.
ghost use Rattle.std.specs.Prelude.{◌≡◌, ◌+◌, ◌-◌, ◌^◌, ◌<◌, ◌≤◌, ◌↔◌, min, Some, length, take, drop, IfOk, OnOk, OnErr, IsErr, IsTrue, if◌then◌else◌};
ghost use Rattle.std.specs.Io.KnownBytes.{prepend_known, IsAtEnd};
ghost use Rattle.tm_edge.specs.Fault.{HasRisen};
ghost use Rattle.tm_edge.specs.Feed.{EdgeFails};

use crate::{Failed, Source, TextSource};
use std::marker::Model;
use tm_types::Bytes;

/// A source over bytes in memory, which it tells.
#[derive(Debug, Drop)]
pub struct MemSource {
    text: TextSource,
    calls: u64,
    faults: u64,
    fail_at: Vec<u64>,
}

impl Model for MemSource {
    ghost use Rattle.std.specs.Prelude.{◌^◌, ◌≤◌, ◌<◌};
    ghost use Rattle.tm_edge.specs.Feed.{Feed};

    ghost Value = { Feed };

    ghost view = { λ s. record { left = s.text; calls = s.calls; faults = s.faults; fail_at = s.fail_at.items } };

    ghost invariant = { λ s. (s.faults ≤ s.calls) × (s.calls < 2 ^ 64) };
}

impl MemSource {
    /// A source of these bytes that fails at the listed calls of `take`, counted from 1, and at
    /// no others.
    pub fn new(bytes: Vec<u8>, fail_at: Vec<u64>) -> MemSource
        ensures left { result.left ≡ bytes.items }
        ensures fail_at { result.fail_at ≡ fail_at.items }
        ensures calls { result.calls ≡ 0 }
        ensures faults { result.faults ≡ 0 }
    {
        MemSource {
            text: TextSource::new(Bytes::from_vec(bytes)),
            calls: 0,
            faults: 0,
            fail_at,
        }
    }

    // Counts a call, and says whether it is to fail.
    fn fails(&mut self) -> bool
        ensures fails { IsTrue result ↔ EdgeFails self.old.calls self.old.fail_at }
        ensures left { self.new.left ≡ self.old.left }
        ensures fail_at { self.new.fail_at ≡ self.old.fail_at }
        ensures calls { self.new.calls ≡ min (self.old.calls + 1) (2 ^ 64 - 1) }
        ensures faults { self.new.faults ≡ self.old.faults + (if result then 1 else 0) }
    {
        if self.calls == u64::MAX {
            return false;
        }
        self.calls += 1;
        let fails = self.fail_at.contains(&self.calls);
        if fails {
            self.faults += 1;
        }
        fails
    }
}

impl Source for MemSource {
    ghost left = { λ s. Some s.left };

    ghost faults = { λ s. s.faults };

    fn take(&mut self, into: &mut [u8]) -> Result<usize, Failed>
        ensures within { IfOk result (λ n. n ≤ length into.new) }
        ensures taken { IfOk result (λ n. Some self.old.left ≡ prepend_known (take n into.new) (Some self.new.left)) }
        ensures ending { IfOk result (λ n. n ≡ 0 → 0 < length into.new → IsAtEnd (Some self.new.left)) }
        ensures kept { OnErr result (Some self.new.left ≡ Some self.old.left) }
        ensures count { self.old.faults ≤ self.new.faults }
        ensures no_fault { OnOk result (self.new.faults ≡ self.old.faults) }
        ensures failed { OnErr result (HasRisen self.old.faults self.new.faults) }

        // It fails at the listed calls and at no others, and gives as much as the buffer takes.
        ensures listed { IsErr result ↔ EdgeFails self.old.calls self.old.fail_at }
        ensures filled { IfOk result (λ n. n ≡ min (length into.new) (length self.old.left)) }
        ensures list { self.new.fail_at ≡ self.old.fail_at }
        ensures calls { self.new.calls ≡ min (self.old.calls + 1) (2 ^ 64 - 1) }
    {
        if self.fails() {
            return Err(Failed);
        }
        self.text.take(into)
    }
}
