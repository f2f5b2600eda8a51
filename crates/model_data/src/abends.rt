//! The numbers of the abnormal ends to which database calls lead.

/// One changed record more than a unit may change.
pub const TOO_MANY_RECORDS: u16 = 900;

const _: () = prove!(TOO_MANY_RECORDS == 900);

/// One root more than the database may have.
pub const TOO_MANY_ROOTS: u16 = 902;

const _: () = prove!(TOO_MANY_ROOTS == 902);

/// A record longer than a record may be.
pub const RECORD_TOO_LONG: u16 = 903;

const _: () = prove!(RECORD_TOO_LONG == 903);
