//! The fields of a sector.
ghost use Rattle.std.specs.Prelude.{◌≡◌, ◌≤◌, ◌+◌, length, drop};
ghost use Rattle.restart_data.specs.Fields.{number2_at, number4_at, number8_at, are_zeros};

/// The number of two bytes at a place.
#[tactic(auto, unfolding(crate::specs::Fields::number2_at))]
pub(crate) fn number2(bytes: &[u8], at: usize) -> u16
    requires { at + 2 ≤ length bytes.now }
    ensures { result ≡ number2_at at bytes.now }
{
    let field = &bytes[at..at + 2];
    u16::from_be_bytes([field[0], field[1]])
}

/// The number of four bytes at a place.
#[tactic(auto, unfolding(crate::specs::Fields::number4_at))]
pub(crate) fn number4(bytes: &[u8], at: usize) -> u32
    requires { at + 4 ≤ length bytes.now }
    ensures { result ≡ number4_at at bytes.now }
{
    let field = &bytes[at..at + 4];
    u32::from_be_bytes([field[0], field[1], field[2], field[3]])
}

/// The number of eight bytes at a place.
#[tactic(auto, unfolding(crate::specs::Fields::number8_at))]
pub fn number8(bytes: &[u8], at: usize) -> u64
    requires { at + 8 ≤ length bytes.now }
    ensures { result ≡ number8_at at bytes.now }
{
    let field = &bytes[at..at + 8];
    u64::from_be_bytes([
        field[0], field[1], field[2], field[3], field[4], field[5], field[6], field[7],
    ])
}

/// Whether all of the bytes are zero.
#[tactic(auto, unfolding(crate::specs::Fields::are_zeros))]
pub fn all_zero(bytes: &[u8]) -> bool
    ensures { result ≡ are_zeros bytes.now }
{
    bytes.iter().all(|&byte| byte == 0)
}

/// Whether all of the bytes from a place on are zero.
pub(crate) fn all_zero_from(bytes: &[u8], at: usize) -> bool
    requires { at ≤ length bytes.now }
    ensures { result ≡ are_zeros (drop at bytes.now) }
{
    all_zero(&bytes[at..])
}
