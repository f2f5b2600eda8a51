//! Where bytes come from.
ghost use Rattle.std.specs.Prelude.{◌≡◌, ◌<◌, ◌≤◌, ℕ, List, Option, length, take, IfOk, OnOk, OnErr};
ghost use Rattle.std.specs.Io.KnownBytes.{prepend_known, IsAtEnd};
ghost use Rattle.tm_edge.specs.Fault.{HasRisen};

use thiserror::Error;

/// A read or a write failed; the device's count of faults rose.
#[derive(Clone, Copy, Debug, PartialEq, Eq, Error)]
#[error("the device failed")]
pub struct Failed;

/// Where bytes come from.
pub trait Source {
    /// The bytes that are left, where the source tells them. Whether it tells them never changes.
    ghost left: { Self → Option (List ℕ) };

    /// How often reading has failed.
    ghost faults: { Self → ℕ };

    /// Takes the next bytes into the front of the buffer and answers how many they are.
    ///
    /// For a buffer that isn't empty, 0 is the end. `Failed` comes exactly where the count of faults
    /// rose; then no byte is lost.
    fn take(&mut self, into: &mut [u8]) -> Result<usize, Failed>
        ensures within { IfOk result (λ n. n ≤ length into.new) }
        ensures taken { IfOk result (λ n. left self.old ≡ prepend_known (take n into.new) (left self.new)) }
        ensures ending { IfOk result (λ n. n ≡ 0 → 0 < length into.new → IsAtEnd (left self.new)) }
        ensures kept { OnErr result (left self.new ≡ left self.old) }
        ensures count { faults self.old ≤ faults self.new }
        ensures no_fault { OnOk result (faults self.new ≡ faults self.old) }
        ensures failed { OnErr result (HasRisen (faults self.old) (faults self.new)) };
}
