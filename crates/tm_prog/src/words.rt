//! The words that the program is called with.
ghost use Rattle.std.specs.Prelude.{◌≡◌, ◌≤◌, map, string_bytes, IfSome};
ghost use Rattle.tm_prog.specs.Words as spec;
ghost use Rattle.tm_prog.specs.Words.{FaultIs, word_fault, disk_by};

use session_lines::number_in;

/// The disk that the words ask for.
#[derive(Clone, Copy, Debug, PartialEq, Eq)]
pub enum DiskWords {
    /// One in memory, of so many sectors.
    InMemory(u32),
    /// The file that the third word names; where it is made, of so many sectors.
    InFile(u32),
}

/// A workload: the seed of its transfers, and how many there are.
#[derive(Clone, Copy, Debug, PartialEq, Eq)]
pub(crate) struct Workload {
    pub(crate) seed: u64,
    pub(crate) transfers: u32,
}

/// The most sectors of a disk.
const GREATEST_SIZE: u64 = 65_536;

/// The most transfers of a workload.
const GREATEST_COUNT: u64 = 10_000;

/// The sectors of a workload's disk.
const WORKLOAD_SIZE: u32 = 16_384;

/// The disk that the words ask for. A workload gets one in memory of 16,384 sectors, and words that break a rule get one in
/// memory that has no sector.
pub fn disk_words(words: &[String]) -> DiskWords
    ensures { result ≡ disk_by (word_fault (map (λ word. string_bytes word) words.now)) (map (λ word. string_bytes word) words.now) }
{
    match find_word_fault(words) {
        Some(_) => DiskWords::InMemory(0),
        None => disk_for(words),
    }
}

fn disk_for(words: &[String]) -> DiskWords
    ensures { result ≡ spec.disk_for (spec.workload_of (map (λ word. string_bytes word) words.now)) (map (λ word. string_bytes word) words.now) }
{
    match workload_of(words) {
        Some(_) => DiskWords::InMemory(WORKLOAD_SIZE),
        None => disk_in(words),
    }
}

fn disk_in(words: &[String]) -> DiskWords
    ensures { result ≡ spec.disk_in (map (λ word. string_bytes word) words.now) }
{
    match words {
        [_, _, size] => DiskWords::InMemory(sectors_of(size)),
        [_, _, _, size, ..] => DiskWords::InFile(sectors_of(size)),
        _ => DiskWords::InMemory(0),
    }
}

fn sectors_of(word: &String) -> u32
    ensures { result ≡ spec.sectors_word (string_bytes word.now) }
{
    match sectors_in(word) {
        Some(sectors) => sectors,
        None => 0,
    }
}

fn sectors_in(word: &String) -> Option<u32>
    ensures { result ≡ spec.sectors_in (string_bytes word.now) }
{
    match number_in(1, GREATEST_SIZE, word.as_bytes()) {
        Some(number) => Some(number as u32),
        None => None,
    }
}

/// The first word that breaks a rule, counted from 1, and the rule.
pub(crate) fn find_word_fault(words: &[String]) -> Option<(u32, u32)>
    ensures fault { FaultIs (word_fault (map (λ word. string_bytes word) words.now)) result }
{
    let [command, words @ ..] = words else {
        return Some((1, 2));
    };
    if command.as_bytes() == b"drill".as_slice() {
        return disk_fault(words);
    }
    if command.as_bytes() == b"workload".as_slice() {
        return workload_fault(words);
    }
    Some((1, 1))
}

fn disk_fault(words: &[String]) -> Option<(u32, u32)>
    ensures { FaultIs (spec.disk_fault (map (λ word. string_bytes word) words.now)) result }
{
    let [kind, words @ ..] = words else {
        return Some((2, 2));
    };
    if kind.as_bytes() == b"MEM".as_slice() {
        return size_fault(3, words);
    }
    if kind.as_bytes() == b"FILE".as_slice() {
        return path_fault(words);
    }
    Some((2, 1))
}

fn path_fault(words: &[String]) -> Option<(u32, u32)>
    ensures { FaultIs (spec.path_fault (map (λ word. string_bytes word) words.now)) result }
{
    let [_, words @ ..] = words else {
        return Some((3, 2));
    };
    size_fault(4, words)
}

fn size_fault(number: u32, words: &[String]) -> Option<(u32, u32)>
    requires { number ≤ 4 }
    ensures { FaultIs (spec.size_fault number (map (λ word. string_bytes word) words.now)) result }
{
    let [size, words @ ..] = words else {
        return Some((number, 2));
    };
    if sectors_in(size).is_none() {
        return Some((number, 4));
    }
    if words.is_empty() {
        None
    } else {
        Some((number + 1, 3))
    }
}

fn workload_fault(words: &[String]) -> Option<(u32, u32)>
    ensures { FaultIs (spec.workload_fault (map (λ word. string_bytes word) words.now)) result }
{
    let [seed, words @ ..] = words else {
        return Some((2, 2));
    };
    if seed_in(seed).is_none() {
        return Some((2, 4));
    }
    transfers_fault(words)
}

fn transfers_fault(words: &[String]) -> Option<(u32, u32)>
    ensures { FaultIs (spec.transfers_fault (map (λ word. string_bytes word) words.now)) result }
{
    let [transfers, words @ ..] = words else {
        return Some((3, 2));
    };
    if transfers_in(transfers).is_none() {
        return Some((3, 4));
    }
    if words.is_empty() { None } else { Some((4, 3)) }
}

fn seed_in(word: &String) -> Option<u64>
    ensures { result ≡ spec.seed_in (string_bytes word.now) }
{
    number_in(0, u64::MAX, word.as_bytes())
}

fn transfers_in(word: &String) -> Option<u32>
    ensures value { result ≡ spec.transfers_in (string_bytes word.now) }
    ensures few { IfSome result (λ transfers. transfers ≤ 10000) }
{
    match number_in(1, GREATEST_COUNT, word.as_bytes()) {
        Some(number) => Some(number as u32),
        None => None,
    }
}

/// The workload that the words ask for, if they ask for one.
pub(crate) fn workload_of(words: &[String]) -> Option<Workload>
    ensures value { result ≡ spec.workload_of (map (λ word. string_bytes word) words.now) }
    ensures few { IfSome result (λ workload. workload.transfers ≤ 10000) }
{
    let [command, seed, transfers] = words else {
        return None;
    };
    if command.as_bytes() != b"workload".as_slice() {
        return None;
    }
    workload_by(seed_in(seed), transfers_in(transfers))
}

fn workload_by(seed: Option<u64>, transfers: Option<u32>) -> Option<Workload>
    requires { IfSome transfers (λ transfers. transfers ≤ 10000) }
    ensures value { result ≡ spec.workload_by seed transfers }
    ensures few { IfSome result (λ workload. workload.transfers ≤ 10000) }
{
    match (seed, transfers) {
        (Some(seed), Some(transfers)) => Some(Workload { seed, transfers }),
        _ => None,
    }
}
