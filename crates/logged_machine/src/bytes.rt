//! Bytes are below 256.
ghost use Rattle.log_records.proofs.Takes.{IsBytes};

/// So it is of these.
pub(crate) fn see_bytes(bytes: &[u8])
    ensures { IsBytes bytes.now }
{
    let _ = bytes;
}
