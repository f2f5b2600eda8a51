//! Laws over what each image that a crash may leave has of a running life, without code.
//!
//! - `specs/CommittedBytes`: what the records of a log say of the slots. What a slot recovers to is what was committed:
//!   a change of a unit that has no sync point doesn't count, a sync point makes its unit's changes count, an abend's
//!   never do, and a checkpoint keeps all (proofs/Slots).
//! - `specs/Life` says what a life has beside its disk, and `specs/KeptImages` what each image has of it: of a life of
//!   which nothing waits for a force (`IsImageKept`) its restart sector and text; a snapshot and a log whose records, done
//!   again, leave what lasts; of each slot its committed bytes, named by a record or in its sectors (`AreRecordsOf`). Such
//!   an image recovers to what lasts (proofs/Front).
//! - `specs/PendingMoves`: the life goes on by moves, which append their records and force nothing: a change of a slot,
//!   the end of a unit (specs/SlotChanges, proofs/Changing), a lasting step (`IsStep`; specs/LifeSteps, LastingSteps,
//!   proofs/Stepping, LastingSteps). Each image has all of the life that was forced last, and the one now has gone on from
//!   it (`PendsBehind`). Whichever sectors a stop within a force kept, the image recovers to what lasted in that one, or
//!   behind one of the steps since; once all is forced, it has all of the life (proofs/Pending, OnDisk).
//! - `specs/LifeCheckpoint` (`MayCheckpoint`): where nothing waits, an image has what a checkpoint asks for, and has all of
//!   the life behind the checkpoint; a checkpoint forces all before (proofs/Checkpointed, CheckpointOnDisk). What an
//!   opening leaves is an image of a life without open units (proofs/Opened). Where the records of its log and those that
//!   wait are of units below the next one, and its own counters stand up to a bound, an image counts up to it and the
//!   sectors of the log's area, also within a force or a checkpoint (specs/UnitCounts, proofs/Counting).
//! - `specs/SlotWrites` (`ArePiecesOfSlots`): slots that count as changed are written behind a force, while the log and the
//!   snapshot stay. A record names each, so at any moment, also where a slot is torn, an image keeps all of the life and
//!   recovers to the same; once they are written, it has all of the life of which they don't count as changed
//!   (proofs/SlotWriting, SlotsOnDisk). So it is of any choice of the changed slots of stores, and of one alone, behind
//!   which the life has the stores of which that one isn't changed (`slot_written_life`; proofs/OneSlotWritten).
//! - `specs/KeptUnits` (`KeepTouches`): what open units keep of their slots is what its snapshot tells, but for slots
//!   that stand as they are committed (proofs/Told, Snapshots); these are changes that a snapshot may tell of, and
//!   there is room for them (proofs/Touched).
#![tactic(auto)]
