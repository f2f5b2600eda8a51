//! Laws over the machine and sessions, without code: what is sent again behind a stop, and how far counters rise.
//!
//! What is sent again (specs/ResentInputs; proofs/Inputs, Again, Replies). No call lets a terminal's last input number
//! fall, and an input under a number up to it is never accepted: it is told that it was accepted before, unless its
//! terminal is stopped. Over a disk that tells its contents: once an input was printed as accepted, whatever a stop
//! leaves behind any further lines and restarts, a cold start apart, has its number as used. Where the disk failed in
//! an input's own call, or in the force behind it, each state that the stop may leave has the terminal's last number as
//! it was, or the number as used; no call but an input of the terminal changes its last number, and where the number is the next one the input
//! is new, unless a refusal that comes behind the number applies. The first reply of a terminal stays the first, with
//! its number and its segments, until it is acknowledged or dequeued, whatever stops and restarts lie between, and it
//! is what the terminal is shown. An input is answered, and leaves what lasts, by its first 17 texts and by how many it
//! has (proofs/Long).
//!
//! The same over all lives of a session (specs/SentAgain, ShownAgain; proofs/LifeEnds, Bound, Linked, SentAgain,
//! FreshInputs, ShownAgain, NumberedReplies, StaysOrGone, AcksInDoubt). Of a life the steps behind a front of its entries
//! are kept, no fewer than were forced; and up to each entry whose text binds all are, but where the disk failed in the
//! force behind it. What holds behind such an entry, and what those behind it keep, so holds of what the next life opens
//! with. An input in whose call, or in the force behind it, the disk failed is known from then on, or fresh up to where
//! it is taken, since no input that was accepted before it is lost; and a reply in the call of whose acknowledgement, or
//! in the force behind it, it failed is never shown again, or is shown on, where it was shown before or all before is
//! kept. An image recovers to a state only with replies whose numbers follow one another, so none that was acknowledged
//! comes back. Where a session asks for cold starts, its lives fall into runs of which all this holds, one more than cold
//! starts at most (specs/ColdRuns; proofs/ColdRuns).
//!
//! Serial codes (specs/SerialOrder; proofs/SerialMessages, SerialPicks, SerialSlots, SerialSteps, SerialOrder, FoundInOrder).
//! At most one region has a message of a serial code, and that is the one with the lowest id. So in the lasting steps
//! that are kept, over all lives, the messages of such a code are completed or abended in the ascending order of their
//! ids. The first life opens with what was handed in, and an image recovers to a state only with messages in that order.
//!
//! Counters (specs/Counts, Measures, SpentCounters; proofs/Entries, Blocks, Spent). A unit sends at most 32 outputs, so
//! an entry raises the next id, each terminal's next reply and the lasting steps by at most 32. Lines make no more
//! blocks than they are; a block adds an entry, that of a force in which the disk failed and a stop to a session at
//! most, or an opening or a stop, and a `QUIET` one entry for each of its turns, which are at most a million; and the
//! end of the source adds such a force's entry and a stop at most. So what lasts of a session over a disk that
//! tells its contents, wherever a stop came, counts up to what the disk handed in had, and 32 more for each opening,
//! entry and stop; and what a session of at most a million blocks does, at 4,096 each, brings no counter to 10^18 that
//! was below 9*10^17. `IsSpentAt` says when a session may be told that a counter is spent: one of what lasts is, or one
//! of the disk's own, where these stand no higher than the disk handed in counts and 4,096 for each opening, entry and
//! stop. Over a disk that tells its contents a bound of its counters is then never below 9*10^17.
#![tactic(auto)]
