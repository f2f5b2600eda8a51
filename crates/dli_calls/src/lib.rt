//! Database calls on the rows of a database, however they are kept, and why each depends on its footprint alone.
//!
//! `needed` plans a call with what it needs before it is made, by a search (`footprint`) or by the one record at which the
//! call looks (`own_record`), of which it gets (`get`), inserts or changes (`edit`, `inserting`, `change`); `calls` makes it.
//!
//! Proved: rows are read where a call looks at them. The plan of a call has the status, the data, the position and the
//! record to be set that `model_data` defines on the whole list of rows, as they were read, and the call is refused exactly by
//! the limit that this record passes, by a record that isn't read, or for want of memory. A call that is made answers and
//! leaves the same; where it is refused, the rows are as they were read and the position as it was. What a get gives is the
//! text of a segment. What a call needs before it is made is told exactly by its footprint, in its order. Where what is
//! kept elsewhere is told as it was written, rows that were read are those that there were.
//!
//! Laws over the definitions (proofs/Same, Front, Changes, Kept, Keys), on which program isolation rests: on two lists
//! of rows that agree on what a call needs, the call needs the same, answers the same, and changes the same record to
//! the same rows, all others staying. What it needs up to the first that is blocked is the same where they agree on
//! what isn't blocked. The record that it changes it needs alone, and the sequence too where a root comes or goes. It
//! leaves rows of the database. Rows are determined by their records.
#![tactic(auto)]

mod calls;
mod change;
mod edit;
mod footprint;
mod get;
mod inserting;
mod need_list;
mod needed;
mod own_record;
mod planned;

pub use calls::{perform, would_change};
pub use footprint::needs;
pub use model_data::{DbCall, Need, Performed, Position};
pub use need_list::Needs;
pub use needed::{NeededPlan, plan_needed};
pub use planned::{Edit, Planned};
