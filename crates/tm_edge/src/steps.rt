//! The moves of bytes within a buffer.
ghost use Rattle.std.specs.Prelude.{◌≡◌, ◌+◌, ◌-◌, ◌<◌, ◌≤◌, length, take, drop, IfOk, OnOk, OnErr};
ghost use Rattle.std.specs.Io.KnownBytes.{prepend_known, IsAtEnd};
ghost use Rattle.tm_edge.specs.Fault.{HasRisen};

use crate::{Failed, Source};

/// Moves the bytes from `start` to `end` to the front.
pub fn move_to_front(bytes: &mut [u8], start: usize, end: usize)
    requires ordered { start ≤ end }
    requires within { end ≤ length bytes.old }
    ensures { take (end - start) bytes.new ≡ drop start (take end bytes.old) }
{
    bytes[..end].rotate_left(start);
}

/// Takes bytes from the source behind the first `end` bytes, and answers how many.
pub fn take_behind<S: Source>(bytes: &mut [u8], end: usize, source: &mut S) -> Result<usize, Failed>
    requires { end < length bytes.old }
    ensures told { IfOk result (λ n. prepend_known (take (end + n) bytes.new) (S.left source.new) ≡ prepend_known (take end bytes.old) (S.left source.old)) }
    ensures front { take end bytes.new ≡ take end bytes.old }
    ensures within { IfOk result (λ n. end + n ≤ length bytes.new) }
    ensures ending { IfOk result (λ n. n ≡ 0 → IsAtEnd (S.left source.new)) }
    ensures kept { OnErr result (S.left source.new ≡ S.left source.old) }
    ensures count { S.faults source.old ≤ S.faults source.new }
    ensures no_fault { OnOk result (S.faults source.new ≡ S.faults source.old) }
    ensures failed { OnErr result (HasRisen (S.faults source.old) (S.faults source.new)) }
{
    source.take(&mut bytes[end..])
}
