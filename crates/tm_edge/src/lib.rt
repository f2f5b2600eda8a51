//! The edge of the transaction manager: where bytes come from and go to, and lines cut from them.
//!
//! `source` and `sink` have the traits, which count their faults; `std_edge` the standard streams, which are trusted;
//! `lines` and `buffer` cut lines of bytes (specs/Lines). A source over a text in memory and a sink that keeps what is
//! written make a session between two texts; a further pair for tests fails where it is told to.
//!
//! Proved: each call of `Lines` serves the first line of the bytes that lie before the reader and leaves those behind
//! it; after an error none is lost. A line is too long exactly from 4,097 bytes on. A read fault comes only where the
//! source counted one. A call over a source or a sink that answers Ok met no fault in it, and want of memory hides
//! neither a fault nor a line that is too long. The source over a text gives its bytes from the front, and never fails.
//! The sink that keeps a text keeps just what is written; it fails only where its count rose, for want of memory, and
//! then keeps what it had.
#![tactic(auto)]

mod buffer;
mod lines;
mod mem_sink;
mod mem_source;
mod sink;
mod source;
mod std_edge;
mod steps;
mod text_sink;
mod text_source;

pub use lines::{Line, LineFault, Lines};
pub use mem_sink::MemSink;
pub use mem_source::MemSource;
pub use sink::Sink;
pub use source::{Failed, Source};
pub use std_edge::{StdSink, StdSource};
pub use text_sink::TextSink;
pub use text_source::TextSource;
