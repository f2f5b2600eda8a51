//! What a disk in memory counts, and the calls at which it is to fail.
ghost use Rattle.std.specs.Prelude.{◌≡◌, ◌⊎◌, ◌↔◌, IsTrue};
ghost use Rattle.tm_disk.specs.Disk.{is_disk_stopped, is_stop_due, one_less, armed};
ghost use Rattle.tm_disk.specs.Count.{raised};

#[derive(Drop)]
pub struct Plan {
    // The calls that fail, counted from 1.
    pub fail_at: Vec<u64>,
    pub calls: u64,
    pub faults: u64,
    pub writes: u64,
    // How many writes met want of memory.
    pub starved: u64,
    // The writes left until the disk stops.
    pub until_stop: Option<u64>,
    // How often it was cut, and with which pick at last.
    pub cuts: u64,
    pub last_pick: u64,
}

/// One more, as far as a count goes.
pub fn raise(count: u64) -> u64
    ensures { result ≡ raised count }
{
    if count < u64::MAX { count + 1 } else { count }
}

// The disk has stopped.
fn has_stopped(until_stop: Option<u64>) -> bool
    ensures { result ≡ is_disk_stopped until_stop }
{
    match until_stop {
        Some(0) => true,
        _ => false,
    }
}

// The disk has stopped, or stops at the next write.
fn stops_now(until_stop: Option<u64>) -> bool
    ensures { result ≡ is_stop_due until_stop }
{
    match until_stop {
        Some(0) => true,
        Some(1) => true,
        _ => false,
    }
}

// The writes left after one more.
fn after_one(until_stop: Option<u64>) -> Option<u64>
    ensures { result ≡ one_less until_stop }
{
    match until_stop {
        None => None,
        Some(0) => Some(0),
        Some(left) => Some(left - 1),
    }
}

// Armed for the n-th write from now.
fn arm_for(until_stop: Option<u64>, n: u64) -> Option<u64>
    ensures { result ≡ armed n until_stop }
{
    match until_stop {
        Some(0) => Some(0),
        _ => Some(n),
    }
}

impl Plan {
    ghost use Rattle.tm_disk.specs.Plan.{IsListed, plan_called, told_to_write, faulted, starved, cut_off};

    // A read or a sync begins: whether it fails.
    pub fn call(&mut self) -> bool
        ensures fails { IsTrue result ↔ (IsListed self.old ⊎ IsTrue (is_disk_stopped self.old.until_stop)) }
        ensures counted { self.new ≡ plan_called self.old }
    {
        self.calls = raise(self.calls);
        self.fail_at.contains(&self.calls) || has_stopped(self.until_stop)
    }

    // A write begins: whether it fails.
    pub fn tell(&mut self) -> bool
        ensures fails { IsTrue result ↔ (IsListed self.old ⊎ IsTrue (is_stop_due self.old.until_stop)) }
        ensures counted { self.new ≡ told_to_write self.old }
    {
        let due = stops_now(self.until_stop);
        self.calls = raise(self.calls);
        self.writes = raise(self.writes);
        self.until_stop = after_one(self.until_stop);
        self.fail_at.contains(&self.calls) || due
    }

    pub fn has_stopped(&self) -> bool
        ensures { result ≡ is_disk_stopped self.now.until_stop }
    {
        has_stopped(self.until_stop)
    }

    pub fn fault(&mut self)
        ensures { self.new ≡ faulted self.old }
    {
        self.faults = raise(self.faults);
    }

    pub fn starve(&mut self)
        ensures { self.new ≡ starved self.old }
    {
        self.starved = raise(self.starved);
        self.faults = raise(self.faults);
    }

    pub fn arm(&mut self, n: u64)
        ensures { self.new ≡ record self.old { until_stop = armed n self.old.until_stop } }
    {
        self.until_stop = arm_for(self.until_stop, n);
    }

    // The disk is cut, which disarms it.
    pub fn cut_off(&mut self, pick: u64)
        ensures { self.new ≡ cut_off pick self.old }
    {
        self.until_stop = None;
        self.cuts = raise(self.cuts);
        self.last_pick = pick;
    }
}
