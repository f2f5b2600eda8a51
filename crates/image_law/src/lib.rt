//! Laws over images, without code: what a log's records do again is what the machine's steps did, and what it leaves
//! breaks no rule.
//!
//! - The records of an accepted input, of an acknowledgement, of a command that lasts, of an abend and of a completion
//!   with its outputs and its pad, behind a log that replays to a state, replay to what the machine's step leaves of
//!   it; a front of a completion's records leaves what lasts as it was. So a log that was read to any of its ends gives
//!   a state that the machine was in (proofs/Laws, Replayed).
//! - Each message and each reply that an image tells of has 1 to 32 segments: a record that adds a segment comes behind
//!   the record that began its message, and what a snapshot tells of was so before.
//! - What the work on a message sends counts at most 65,536 bytes, and goes to terminals and to codes without
//!   conversations; each message that it sends has 1 to 32 segments, and an abend's number is one from 1 to 4,095
//!   (specs/SentMessages, proofs/Trials). So every call of the machine leaves the room that it found: what messages and
//!   replies count, with 65,536 bytes for each busy region, is no more than the queues may hold. And what it leaves
//!   breaks no rule of a state, where its pads are right and its counts are small (specs/SoundMachine, proofs/Steps).
#![tactic(auto)]
