//! How a life begins and what it was: what an opening answers, what a life begins with, and the writes of a cold start.
//!
//! - `spending`, `refusals`, `how`: what opening an image answers, and why it is refused, what a life counts on, what
//!   is judged before it begins, and what it finds on the disk then (specs/OpenedImage, Renewal, LifeBeginning). The
//!   first counter that is spent is told exactly, 10^18 being the limit.
//! - `life`: a life with its history, and which of its entries have a fault in place of their answer (specs/Faults).
//! - `making`, `codes`, `rows`, `copies`: the parts of a life that begins with what was read are those of the state: no
//!   region has a message, the limit priority counts for the codes whose waiting messages reach their limit count, and
//!   no slot counts as changed (specs/OpeningParts). What lasts is copied exactly, with the rows of each database in
//!   their order (specs/OpeningState). `Memory` is the only refusal.
//! - `spelled`, `first_sector`: of what lasts of an empty machine are made the parts of its life, the bytes of the
//!   first snapshot, and the first restart sector, as the first image has them (specs/MadeParts). The first sectors of
//!   a text spell it (proofs/TextBack).
//! - `clearing`, `filling`, `beginning`, `places`, `writing`: the image that a cold start lays. The restart sector is
//!   zeroed first; then come the text, the zeros of the logs and of the data, and the first snapshot, and last the
//!   restart sector, with a sync behind each of the three. At any moment the image is the one before, has zeros for its
//!   restart sector, or is the first image, which recovers to the empty state (specs/FirstImage); once all is done each
//!   of these stands there.
#![tactic(auto)]

mod beginning;
mod clearing;
mod codes;
mod copies;
mod filling;
mod first_parts;
mod first_sector;
mod how;
mod laying_cold;
mod life;
mod making;
mod parts;
mod places;
mod refusals;
mod rows;
mod spelled;
mod spending;
mod writing;

pub use copies::lasting_of;
pub use first_parts::{Made, make};
pub use how::How;
pub use life::{History, Life};
pub use making::parts_of;
pub use model_machine::Counter;
pub use parts::Parts;
pub use refusals::OpenError;
pub use rows::rows_of;
pub use spending::{Counts, spent_counter};
pub use writing::write_image;
