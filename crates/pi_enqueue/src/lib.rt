//! The enqueue table: which regions hold which resources, which wait for one, and who blocks them.
//!
//! The definitions are specs/Table and EnqueueRequests of `model_data`. Holders are kept in one map in their order, so
//! a request looks at the holders of its own resource and at the waiters alone. Besides, each region has the list of
//! the resources that it holds, so a release costs by these and by the waiters.
//!
//! Proved: each request, all requests of a call, a release and the end of a wait leave the table as defined; who holds
//! a resource, what a region waits for and who blocks it are told exactly. Want of memory changes nothing; a release
//! takes none. Laws (proofs/Laws, Keeping): what is held stays held until it is released; who holds a resource alone is
//! its only holder.
#![tactic(auto)]

pub use model_data::{Asked, Request};
pub use table::Table;

mod held;
mod holds;
mod lists;
mod queue;
mod table;
