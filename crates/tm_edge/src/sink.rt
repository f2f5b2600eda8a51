//! Where bytes go to.
ghost use Rattle.std.specs.Prelude.{◌≡◌, ◌≤◌, ℕ, List, Option, length, take, OnOk, OnErr};
ghost use Rattle.std.specs.Io.KnownBytes.{append_known};
ghost use Rattle.tm_edge.specs.Fault.{HasRisen, AppendsFront};

use crate::Failed;

/// Where bytes go to.
pub trait Sink {
    /// The bytes that were written, where the sink tells them. Whether it tells them never changes.
    ghost written: { Self → Option (List ℕ) };

    /// How often writing has failed.
    ghost faults: { Self → ℕ };

    /// Writes all the bytes. `Failed` comes exactly where the count of faults rose; then a front of
    /// them was written.
    fn put(&mut self, bytes: &[u8]) -> Result<(), Failed>
        ensures put { OnOk result (written self.new ≡ append_known (written self.old) bytes.now) }
        ensures front { OnErr result (AppendsFront (written self.old) (written self.new) bytes.now) }
        ensures count { faults self.old ≤ faults self.new }
        ensures no_fault { OnOk result (faults self.new ≡ faults self.old) }
        ensures failed { OnErr result (HasRisen (faults self.old) (faults self.new)) };
}
