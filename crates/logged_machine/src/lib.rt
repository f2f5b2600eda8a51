//! A machine with its log on a disk: what lasts of a call is appended to the log, and forced where one asks for it.
//!
//! - `call`, `calls`, `telling`: an input, an acknowledgement, a command and a turn are values that promise alike
//!   (`Call`). Each is answered as the machine says, and the records of what lasts of it, with a turn's changes of
//!   slots, are appended behind what was: they fit the log's area, and without memory, or room, nothing has changed and
//!   nothing is told. `rooms` tells how much may be told so that 32 sectors of the area stay free; `units` numbers the
//!   regions' units as the machine's turns say.
//! - `snapshots`, `writing`: a checkpoint of the machine's parts. Its snapshot has what lasts and, of each region that
//!   has a unit, what the unit touched. Want of memory comes before any write and changes nothing; `Disk` comes exactly
//!   where the disk failed. All that was appended is forced first. Whenever a crash comes, the image recovers to one of
//!   the states that pended. Once it has answered, the machine stands where it stood, no slot counts as changed, the
//!   restart sector has the next number, the log is empty, and a life is on the disk that goes with the machine
//!   (specs/UntakenCheckpoint).
//! - `due`: a call with a checkpoint before it (specs/ToldCheckpoint). It takes all memory first: the snapshot is
//!   spelled, the machine does the call with its records told apart from the journal, and only then is the checkpoint
//!   written, as all stood before the call, with the call's records behind it. The only other refusal is a disk that
//!   failed.
//! - `opening`, `looking`: the parts of an empty machine are opened with what the disk recovers to, or cold. A refusal
//!   has its cause in the image, has written nothing unless the disk failed, and leaves the parts as they were.
//!   Whenever a crash comes, the image recovers as before, and in a cold start so or to the empty state. Once it has
//!   answered, the machine stands where that state begins, and a life is on the disk that goes with it
//!   (specs/MachineOpening).
//! - `logged`, `step`, `forcing`, `checking`, `refreshing`, `spending`: `LoggedMachine`. States pend (specs/LoggedParts):
//!   the first lasts in each image that a crash may leave, each further one is behind one lasting step more, and the last
//!   lasts now. `forced` tells how many lasting steps the first has. A call that is answered adds its step's state; a
//!   checkpoint, also one that was due before a call, and `force_log` leave none but what lasted (specs/CallOutcome).
//!   While calls are served, each image is of the definition's text and recovers to one of the states that pend; at any
//!   moment of a call it recovers to one of those that pended before. Once the disk has failed, nothing is served any
//!   more, and what a crash leaves is still one of these. Want of memory has changed nothing and written nothing, also
//!   where a checkpoint was due. A freeze that a region's work forbids has changed nothing and written nothing. The first
//!   counter that is spent is told exactly.
//!
//! How much is written (specs/CheckpointDue): no checkpoint is due before a call that has no records of its own, or
//! leaves 32 sectors of the area free with them: it writes nothing. Any other takes one checkpoint, or the disk failed in
//! it; that writes no more sectors than those of what was appended, those of each slot that counts as changed, those of a
//! snapshot's area and the restart sector. A force writes to the log alone, no more sectors than what was appended takes.
//! Where the machine's own counters (the epoch, the log's next sequence behind all that is to be forced, the checkpoint,
//! the next unit) stand up to a bound, whatever a crash leaves at any moment of a call counts further by twice the sectors
//! of a log area at most.
//!
//! Laws (`IsCarried` of specs/CarriedParts; proofs/Turning, Answering, Storing): a life goes with the machine's parts
//! where it goes with their machine and slots. What the parts promise of each call carries it on, by a lasting step or by
//! none. Records that a call tells are of its region's unit or of none, so no record on the disk is of a unit to come.
#![tactic(auto)]

mod beginning;
mod bytes;
mod call;
mod calls;
mod checking;
mod due;
mod forcing;
mod logged;
mod looking;
mod machine_opening;
mod names;
mod opening;
mod refreshing;
mod refused;
mod rooms;
mod snapshots;
mod spending;
mod step;
mod telling;
mod told_checkpoints;
mod units;
mod writing;

pub use call::Call;
pub use calls::{Acknowledgement, Input, Turn};
pub use logged::LoggedMachine;
pub use opening::open;
pub use refused::OpenRefused;
pub use snapshots::snapshot;
pub use writing::checkpoint;
