//! Tests of what no session reaches, through public calls: devices and sources that fail at a given call, and calls that the program
//! itself doesn't make, each once where it goes well.
//!
//! They stand beside those crates, which so are proved once. A module has the tests of one crate. What a session can show stands in the
//! tables of `.ci/tables`.
#![tactic(auto)]

#[cfg(test)]
mod conversations;
#[cfg(test)]
mod database_calls;
#[cfg(test)]
mod databases;
#[cfg(test)]
mod disk_images;
#[cfg(test)]
mod edge_lines;
#[cfg(test)]
mod enqueue_rings;
#[cfg(test)]
mod forced_logs;
#[cfg(test)]
mod record_bytes;
#[cfg(test)]
mod record_layouts;
#[cfg(test)]
mod sector_chains;
#[cfg(test)]
mod unit_ends;
#[cfg(test)]
mod units;
