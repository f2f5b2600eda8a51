//! A field of the screen.

use tm_types::Name;

/// A DFLD: a field of the screen, within one of its 24 rows of 80 bytes.
#[derive(Debug, Drop)]
pub struct DeviceField {
    /// The number of its line.
    pub number: u32,
    pub name: Name,
    /// 1 to 24.
    pub row: u8,
    /// 1 to 80.
    pub column: u8,
    /// How many bytes it has, 1 to 80.
    pub width: u8,
}
