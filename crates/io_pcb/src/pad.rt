//! What becomes of a scratch pad.

/// What a sync point does with the pad of the message's conversation, as it is lent.
#[derive(Clone, Copy, Debug)]
pub enum LentPad<'a> {
    /// The pad stays as it was, or there is none.
    Stays,
    /// The new pad: its code and work area.
    New(&'a [u8]),
    /// The conversation ends.
    Ends,
}
