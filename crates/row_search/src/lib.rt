//! Looking for rows among those of a record: what the arguments of a call ask for, and the first row that fits.
//!
//! Proved: a row is found exactly where `model_data` finds it in the record. Arguments that were looked up once
//! are met by just the segments that fit them.
#![tactic(auto)]

pub use asked::{
    Asked, asked_number, asked_root, data_length, fitted_bytes, fitted_key, number_named,
};
pub use search::{first_after, first_below, has_path, is_within};

mod asked;
mod search;
