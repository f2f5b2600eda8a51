//! A disk in memory, which fails and is cut off as it is told.
ghost use Rattle.std.specs.Prelude.{◌≡◌, ◌⊎◌, ◌+◌, ◌<◌, ◌↔◌, IsTrue, IsFalse, IfOk, OnOk, OnErr, IsErr, is_err, if◌then◌else◌, None};
ghost use Rattle.tm_disk.specs.Disk.{Keeps, IsToldToStop, MayHaveWritten, HasWritten, IsCut, Only, FailedSince, sector_at, is_disk_stopped, is_stop_due, armed};

use crate::contents::Contents;
use crate::plan::Plan;
use crate::{Disk, Failed, Sector};
use std::alloc::{AllocError, Global};

/// A disk in memory. It keeps each write that was made, so that a crash can be tried at any moment.
#[derive(Drop)]
pub struct MemDisk {
    contents: Contents,
    plan: Plan,
}

impl MemDisk {
    ghost use Rattle.std.specs.Prelude.{replicate};
    ghost use Rattle.tm_disk.specs.Sector.{blank};
    ghost use Rattle.tm_disk.specs.Moments.{zero_disk};
    ghost use Rattle.tm_disk.specs.MemDisk.{mem_disk_state, disk_moment_of, fails_at, calls_of, starved_of, recorded};

    /// A disk of zero bytes. The calls of `read`, `write` and `sync` are counted together, from 1, and those that
    /// are listed fail.
    pub fn new(alloc: Global, sectors: u32, fail_at: Vec<u64>) -> Result<MemDisk, AllocError>
        ensures zeros { IfOk result (λ disk. (mem_disk_state disk).shown ≡ replicate sectors blank) }
        ensures synced { IfOk result (λ disk. Only (mem_disk_state disk).shown (mem_disk_state disk)) }
        ensures moment { IfOk result (λ disk. disk_moment_of disk ≡ zero_disk sectors) }
        ensures listed { IfOk result (λ disk. fails_at disk ≡ fail_at.items) }
        ensures calls { IfOk result (λ disk. calls_of disk ≡ 0) }
        ensures counts { IfOk result (λ disk. ((mem_disk_state disk).faults ≡ 0) × ((mem_disk_state disk).writes ≡ 0) × (starved_of disk ≡ 0) × (recorded disk ≡ 0)) }
        ensures not_armed { IfOk result (λ disk. (mem_disk_state disk).until_stop ≡ None) }
        ensures not_cut { IfOk result (λ disk. (mem_disk_state disk).cuts ≡ record { count = 0; pick = 0 }) }
    {
        Ok(MemDisk {
            contents: Contents::new(alloc, sectors)?,
            plan: Plan {
                fail_at,
                calls: 0,
                faults: 0,
                writes: 0,
                starved: 0,
                until_stop: None,
                cuts: 0,
                last_pick: 0,
            },
        })
    }

    /// How many writes met want of memory.
    pub fn starved(&self) -> u64
        ensures { result ≡ starved_of self.now }
    {
        self.plan.starved
    }
}

impl Disk for MemDisk {
    ghost use Rattle.tm_disk.specs.Count.{raised};
    ghost use Rattle.tm_disk.specs.Moments.{settled_by};
    ghost use Rattle.tm_disk.specs.MemDisk.{mem_disk_state, disk_moment_of, calls_of, starved_of, fails_at, recorded, MustFail, MustFailToWrite, CountsCall, AddsWrite, AddsNoWrite, Starves, SameRecord, OnlyArms, disk_law};
    ghost use Rattle.tm_disk.specs.declared.record.Before.TheVariants.{Synced, Cut};

    ghost state = { mem_disk_state };

    ghost is_disk = { disk_law };

    fn sectors(&self) -> u32 {
        self.contents.size()
    }

    fn faults(&self) -> u64 {
        self.plan.faults
    }

    fn read(&mut self, at: u32, into: &mut Sector) -> Result<(), Failed>
        requires { at < (mem_disk_state self.old).size }
        ensures value { OnOk result (IsTrue (mem_disk_state self.old).tells → into.new ≡ sector_at (mem_disk_state self.old).shown at) }
        ensures keeps { Keeps (mem_disk_state self.old) (mem_disk_state self.new) }
        ensures until_stop { (mem_disk_state self.new).until_stop ≡ (mem_disk_state self.old).until_stop }
        ensures stopped { IsTrue (is_disk_stopped (mem_disk_state self.old).until_stop) → IsErr result }
        ensures no_fault { OnOk result ((mem_disk_state self.new).faults ≡ (mem_disk_state self.old).faults) }
        ensures failed { OnErr result (FailedSince (mem_disk_state self.old) (mem_disk_state self.new)) }

        // It fails where it is to fail, and nowhere else.
        ensures fails { IsErr result ↔ MustFail self.old }
        ensures counts { CountsCall self.old self.new (is_err result) }
        ensures moment { disk_moment_of self.new ≡ disk_moment_of self.old }
        ensures same { SameRecord self.old self.new }
    {
        if self.plan.call() {
            self.plan.fault();
            return Err(Failed);
        }
        *into = self.contents.get(at);
        Ok(())
    }

    fn write(&mut self, at: u32, from: &Sector) -> Result<(), Failed>
        requires { at < (mem_disk_state self.old).size }
        ensures tried { MayHaveWritten at from.now (mem_disk_state self.old) (mem_disk_state self.new) }
        ensures done { OnOk result (HasWritten at from.now (mem_disk_state self.old) (mem_disk_state self.new)) }
        ensures stopped { IsTrue (is_stop_due (mem_disk_state self.old).until_stop) → IsErr result }
        ensures no_fault { OnOk result ((mem_disk_state self.new).faults ≡ (mem_disk_state self.old).faults) }
        ensures failed { OnErr result (FailedSince (mem_disk_state self.old) (mem_disk_state self.new)) }

        // It fails where it is to fail and where its record is full, and else for want of memory alone.
        ensures fails { MustFailToWrite self.old → IsErr result }
        ensures starves { IsErr result → MustFailToWrite self.old ⊎ Starves self.old self.new }
        ensures counts { CountsCall self.old self.new (is_err result) }
        ensures counted { (mem_disk_state self.new).writes ≡ raised (mem_disk_state self.old).writes }

        // A disk that has stopped, or whose record is full, adds nothing. Any other adds the write, also where it
        // fails, unless that met want of memory.
        ensures stopped_adds_nothing { IsTrue (is_disk_stopped (mem_disk_state self.old).until_stop) → AddsNoWrite self.old self.new }
        ensures full_adds_nothing { recorded self.old ≡ 262144 → AddsNoWrite self.old self.new }
        ensures adds { IsFalse (is_disk_stopped (mem_disk_state self.old).until_stop) → recorded self.old < 262144 → AddsWrite at from.now self.old self.new ⊎ (IsErr result × Starves self.old self.new) }
    {
        let stopped = self.plan.has_stopped();
        let fails = self.plan.tell();
        if stopped || self.contents.is_full() {
            self.plan.fault();
            return Err(Failed);
        }
        if self.contents.write(at, from).is_err() {
            self.plan.starve();
            return Err(Failed);
        }
        if fails {
            self.plan.fault();
            return Err(Failed);
        }
        Ok(())
    }

    fn sync(&mut self) -> Result<(), Failed>
        ensures synced { OnOk result (Only (mem_disk_state self.new).shown (mem_disk_state self.new)) }
        ensures keeps { Keeps (mem_disk_state self.old) (mem_disk_state self.new) }
        ensures until_stop { (mem_disk_state self.new).until_stop ≡ (mem_disk_state self.old).until_stop }
        ensures stopped { IsTrue (is_disk_stopped (mem_disk_state self.old).until_stop) → IsErr result }
        ensures no_fault { OnOk result ((mem_disk_state self.new).faults ≡ (mem_disk_state self.old).faults) }
        ensures failed { OnErr result (FailedSince (mem_disk_state self.old) (mem_disk_state self.new)) }

        // It fails where it is to fail, and nowhere else.
        ensures fails { IsErr result ↔ MustFail self.old }
        ensures counts { CountsCall self.old self.new (is_err result) }
        ensures settled { OnOk result (disk_moment_of self.new ≡ settled_by Synced (disk_moment_of self.old)) }
        ensures unchanged { OnErr result (disk_moment_of self.new ≡ disk_moment_of self.old) }
        ensures same { SameRecord self.old self.new }
    {
        if self.plan.call() {
            self.plan.fault();
            return Err(Failed);
        }
        self.contents.sync();
        Ok(())
    }

    fn arm(&mut self, n: u64) -> bool
        requires { 0 < n }
        ensures can { IsTrue result ↔ IsTrue (mem_disk_state self.old).can_arm }
        ensures told { IsToldToStop (mem_disk_state self.old) (mem_disk_state self.new) }
        ensures no_fault { (mem_disk_state self.new).faults ≡ (mem_disk_state self.old).faults }
        ensures armed { IsTrue result → (mem_disk_state self.new).until_stop ≡ armed n (mem_disk_state self.old).until_stop }
        ensures nothing { IsFalse result → self.new ≡ self.old }

        // It changes no count, no list and nothing that a crash may leave.
        ensures arms { OnlyArms self.old self.new }
    {
        self.plan.arm(n);
        true
    }

    fn cut(&mut self, pick: u64)
        ensures cut { IsCut pick (mem_disk_state self.old) (mem_disk_state self.new) }

        // The sectors that were written take the digits of the pick in ascending order.
        ensures picked { disk_moment_of self.new ≡ settled_by (Cut pick) (disk_moment_of self.old) }
        ensures same { SameRecord self.old self.new }
        ensures calls { (calls_of self.new ≡ calls_of self.old) × (fails_at self.new ≡ fails_at self.old) }
        ensures faults { (mem_disk_state self.new).faults ≡ (mem_disk_state self.old).faults }
    {
        self.contents.cut(pick);
        self.plan.cut_off(pick);
    }
}
