//! What is remembered of the `+` lines that aren't kept.

/// What is remembered of the `+` lines of an input that stand behind its first 16, and of the field lines
/// of a screen.
#[derive(Clone, Copy, Debug)]
pub struct Others {
    /// How many they are.
    pub count: usize,
    /// Whether each of them has an operand.
    pub complete: bool,
    /// Whether each byte of them is printable.
    pub printable: bool,
    /// The length of the first of their texts that is too long.
    pub long: Option<u64>,
    /// The lowest rule that a field line breaks.
    pub fields: Result<(), u8>,
}
