//! Where bytes first are of another kind.
ghost use Rattle.std.specs.Prelude.{◌≡◌, ◌<◌, position, not, length, IfSome, take};
ghost use Rattle.tm_types.specs.Name.{is_name_byte};

use tm_types::is_name_byte;

/// The place of the first byte that no name may have.
pub(crate) fn first_outside_names(bytes: &[u8]) -> Option<usize>
    ensures value { result ≡ position (λ b. not (is_name_byte b)) bytes.now }
    ensures within { IfSome result (λ i. i < length bytes.now) }
{
    bytes.iter().position(|&b| !is_name_byte(b))
}

/// The first bytes, at most so many.
pub(crate) fn front(bytes: &[u8], count: usize) -> &[u8]
    ensures { result.now ≡ take count bytes.now }
{
    if bytes.len() < count {
        bytes
    } else {
        &bytes[..count]
    }
}
