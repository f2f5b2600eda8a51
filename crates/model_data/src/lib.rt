//! The definitions of data: rows, database calls, and what regions hold and wait for.
//!
//! The crate holds definitions and the small types that they speak of, and almost no code.
//!
//! - Rows: paths in hierarchic order, segments, records, and the spelling of a record (specs/Path, PathOrder, Row,
//!   Record, Rows, RowsOfBytes).
//! - Database calls, over the whole list of a database's rows: what a call asks for, where a PCB stands, what a call
//!   answers and leaves, what it needs before it is made, and the abends at the limits (specs/DatabaseCalls, GetCalls,
//!   Search, ChangeCalls, Data, Footprint).
//! - Enqueues: the enqueue table, what a request and a release make of it, who blocks whom, and how a ring of waiting
//!   regions is broken (specs/Table, EnqueueRequests, Cycle).
//!
//! Proved: paths are ordered as defined, which is a total order.
#![tactic(auto)]

pub mod abends;
mod call;
mod cycle;
mod need;
mod path;
mod request;
mod row;
mod victim;
mod victims;

pub use call::{DbCall, Performed, Position, Reach, RowsLimit};
pub use cycle::Cycle;
pub use need::Need;
pub use path::Path;
pub use request::{Asked, Holder, Request};
pub use row::Row;
pub use victim::Victim;
pub use victims::Victims;
