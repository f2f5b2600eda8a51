//! A sink into memory.
ghost use Rattle.std.specs.Prelude.{◌≡◌, ◌+◌, ◌-◌, ◌^◌, ◌<◌, ◌≤◌, ◌⊎◌, ◌↔◌, ◌++◌, min, Some, [], length, take, OnOk, OnErr, IsErr, IsTrue, if◌then◌else◌};
ghost use Rattle.std.specs.Io.KnownBytes.{append_known};
ghost use Rattle.tm_edge.specs.Fault.{HasRisen, AppendsFront};
ghost use Rattle.tm_edge.specs.Feed.{EdgeFails};

use crate::{Failed, Sink};
use std::alloc::{AllocError, Global};
use std::marker::Model;

/// A sink into memory, which tells what was written. It writes only into room that was reserved.
#[derive(Debug, Drop)]
pub struct MemSink {
    bytes: Vec<u8>,
    room: usize,
    calls: u64,
    faults: u64,
    fail_at: Vec<u64>,
}

impl Model for MemSink {
    ghost use Rattle.std.specs.Prelude.{◌+◌, ◌^◌, ◌≤◌, ◌<◌, vec_len, vec_capacity};
    ghost use Rattle.tm_edge.specs.Feed.{Store};

    ghost Value = { Store };

    ghost view = { λ s. record { written = s.bytes.items; room = s.room; calls = s.calls; faults = s.faults; fail_at = s.fail_at.items } };

    ghost invariant = { λ s. (vec_len s.bytes + s.room ≤ vec_capacity s.bytes) × (s.calls < 2 ^ 64) × (s.faults < 2 ^ 64) };
}

impl MemSink {
    /// A sink with no room that fails at the listed calls of `put`, counted from 1, and at no
    /// others but a `put` past its room. This takes no memory.
    pub fn new(alloc: Global, fail_at: Vec<u64>) -> MemSink
        ensures written { result.written ≡ [] }
        ensures room { result.room ≡ 0 }
        ensures fail_at { result.fail_at ≡ fail_at.items }
        ensures calls { result.calls ≡ 0 }
        ensures faults { result.faults ≡ 0 }
    {
        MemSink {
            bytes: Vec::new(alloc),
            room: 0,
            calls: 0,
            faults: 0,
            fail_at,
        }
    }

    /// Makes room for `n` more bytes.
    pub fn reserve(&mut self, n: usize) -> Result<(), AllocError>
        ensures ok { OnOk result (self.new ≡ record self.old { room = self.old.room + n }) }
        ensures err { OnErr result (self.new ≡ self.old) }
    {
        let Some(room) = self.room.checked_add(n) else {
            return Err(AllocError);
        };
        self.bytes.reserve(room)?;
        self.room = room;
        Ok(())
    }

    /// What was written.
    pub fn bytes(&self) -> &[u8]
        ensures { result.now ≡ self.now.written }
    {
        &self.bytes
    }

    // Counts a call, and says whether it is listed as one that fails.
    fn is_listed(&mut self) -> bool
        ensures listed { IsTrue result ↔ EdgeFails self.old.calls self.old.fail_at }
        ensures counts { self.new ≡ record self.old { calls = min (self.old.calls + 1) (2 ^ 64 - 1) } }
    {
        if self.calls == u64::MAX {
            return false;
        }
        self.calls += 1;
        self.fail_at.contains(&self.calls)
    }

    // Counts a fault.
    fn fail(&mut self) -> Failed
        ensures counts { self.new ≡ record self.old { faults = min (self.old.faults + 1) (2 ^ 64 - 1) } }
        ensures rises { HasRisen self.old.faults self.new.faults }
        ensures never_falls { self.old.faults ≤ self.new.faults }
    {
        self.faults = self.faults.saturating_add(1);
        Failed
    }

    // Adds bytes for which there is room.
    fn add(&mut self, bytes: &[u8])
        requires { length bytes.now ≤ self.old.room }
        ensures { self.new ≡ record self.old { written = self.old.written ++ bytes.now; room = self.old.room - length bytes.now } }
    {
        self.bytes.extend_from_slice(bytes).unwrap();
        self.room -= bytes.len();
    }
}

impl Sink for MemSink {
    ghost written = { λ s. Some s.written };

    ghost faults = { λ s. s.faults };

    fn put(&mut self, bytes: &[u8]) -> Result<(), Failed>
        ensures put { OnOk result (Some self.new.written ≡ append_known (Some self.old.written) bytes.now) }
        ensures front { OnErr result (AppendsFront (Some self.old.written) (Some self.new.written) bytes.now) }
        ensures count { self.old.faults ≤ self.new.faults }
        ensures no_fault { OnOk result (self.new.faults ≡ self.old.faults) }
        ensures failed { OnErr result (HasRisen self.old.faults self.new.faults) }

        // It fails at the listed calls and past its room, and then writes nothing.
        ensures fails { IsErr result ↔ (EdgeFails self.old.calls self.old.fail_at ⊎ (self.old.room < length bytes.now)) }
        ensures none { OnErr result (self.new.written ≡ self.old.written) }
        ensures room { OnOk result (self.new.room + length bytes.now ≡ self.old.room) }
        ensures room_kept { OnErr result (self.new.room ≡ self.old.room) }
        ensures list { self.new.fail_at ≡ self.old.fail_at }
        ensures calls { self.new.calls ≡ min (self.old.calls + 1) (2 ^ 64 - 1) }
    {
        if self.is_listed() {
            return Err(self.fail());
        }
        if self.room < bytes.len() {
            return Err(self.fail());
        }
        self.add(bytes);
        Ok(())
    }
}
