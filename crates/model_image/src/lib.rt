//! The definitions of an image of a system's disk: what it recovers to, or the lowest rule that it breaks.
//!
//! `specs/RecoveredState` says it in few lines, and the other files say what they speak of: how bytes are cut into
//! records (specs/CutRecords), what each record does (specs/Replay), which record speaks for a slot, and what its
//! sectors spell (specs/Slots), and the rules of a state (specs/States). Where the areas stand says specs/Areas of
//! `model_system`. `specs/StepRecords` says which records
//! tell of a lasting step of the machine, in the order in which they stand in the log. There is no code.
//!
//! Proved: an image has one such answer (proofs/Answers). Images that agree on the restart sector, on what it names and
//! on the sectors of slots that no record names have the same (proofs/Alike). An image with zeros in sector 0 has
//! the empty state (proofs/Unread). The records of an accepted input, of an acknowledgement, of an abend and of a
//! completion with its outputs, done again, leave what the machine's step leaves (proofs/Steps). The first bytes of
//! records are cut into those that are whole, and a rest that is cut off (proofs/Cutting).
#![tactic(auto)]
