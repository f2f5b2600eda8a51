//! Records of a database: their images, their bytes, and the rows that a database holds, by the definitions of
//! `model_data`.
//!
//! Proved: a record has one spelling, and what is no record is refused at the end of the longest one among its
//! prefixes. Rows lend a record after reading it, and tell why it isn't read.
//! Reading or setting a record changes no other, and rows stay those of a database whatever is read or set in them.
#![tactic(auto)]

pub use decode::{DecodeFault, decode_record};
pub use encode::{EncodeRefused, encode_record, record_limit};
pub use image::RecordImage;
pub use model_data::{Path, Row};
pub use plain::PlainRows;
pub use rows::{Rows, RowsRefused};

mod decode;
mod encode;
mod image;
mod plain;
mod rows;
