//! The numbers of the abnormal ends to which message calls lead.

/// The program has asked for its work to be taken back and to be ended.
pub const ROLLED_BACK: u16 = 778;

/// The program has given back a text that is no scratch pad of the conversation.
pub const WRONG_PAD: u16 = 904;

const _: () = prove!(ROLLED_BACK == 778);

const _: () = prove!(WRONG_PAD == 904);
