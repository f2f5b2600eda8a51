//! What the arguments of a call ask for.
ghost use Rattle.std.specs.Prelude.{◌≡◌, ◌≤◌, ◌&&◌, Some, drop, length, map, min, take, IfOk};
ghost use Rattle.std.specs.List.{list_all};
ghost use Rattle.model_data.specs.Search.{fitted_key, place_named, number_named, data_length, meets_ssa, asked_number, fits};
ghost use Rattle.model_data.specs.GetCalls.{key_asked, asked_root};
ghost use Rattle.row_search.specs.AskedArguments.{looked_up, asked_key, is_as_asked, is_met};

use model_data::Path;
use std::alloc::Global;
use std::marker::Model;
use tm_types::{Bytes, Dbd, Key, KeyTest, Memory, Name, SegType, SegTypes, Ssa};

/// How many arguments are looked up once: a database has no more levels.
const LEVELS: usize = 8;

/// What an argument asks of a key.
#[derive(Clone, Copy, Debug)]
enum AskedKey {
    Any,
    Equal(Key),
    AtLeast(Key),
}

/// What an argument asks of a segment: the number of its type, and what its key has to be.
#[derive(Clone, Copy, Debug)]
struct AskedSegment {
    number: u8,
    key: AskedKey,
}

/// The arguments of a call on a database. The first eight are looked up among its types once, and not for each row.
#[derive(Debug, Drop)]
pub struct Asked<'a> {
    dbd: &'a Dbd,
    ssas: &'a [Ssa],
    /// The number of the type that the last argument names.
    last: u8,
    /// What the first arguments ask, or None where one names no type.
    first: [Option<AskedSegment>; LEVELS],
}

impl<'a> Model for Asked<'a> {
    ghost use Rattle.row_search.specs.Arguments.{Arguments};

    ghost Value = { Arguments };

    ghost use Rattle.row_search.specs.AskedArguments.{AreLookedUp};

    ghost view = { λ a. record { dbd = a.dbd.now; ssas = a.ssas.now } };

    ghost invariant = { λ a. AreLookedUp a.dbd.now.types a.ssas.now a.last a.first };
}

impl<'a> Asked<'a> {
    /// What these arguments ask for. This takes no memory.
    pub fn of(dbd: &'a Dbd, ssas: &'a [Ssa]) -> Asked<'a>
        requires { length dbd.now.types ≤ 255 }
        ensures dbd { result.dbd ≡ dbd.now }
        ensures ssas { result.ssas ≡ ssas.now }
    {
        let types = &dbd.types;
        let last = asked_number(types, ssas);
        let first = looked_up_first(types, ssas);
        Asked {
            dbd,
            ssas,
            last,
            first,
        }
    }

    /// Whether a segment fits the arguments.
    pub fn fits(&self, path: &Path) -> bool
        ensures { result ≡ fits self.now.dbd.types self.now.ssas path.now }
    {
        if self.ssas.is_empty() {
            return true;
        }
        path.segment() == self.last && self.are_met(path)
    }

    /// Whether the segment of this path, or one above it, meets each argument.
    fn are_met(&self, path: &Path) -> bool
        ensures { result ≡ list_all (λ s. meets_ssa self.now.dbd.types s path.now) self.now.ssas }
    {
        let known = self.ssas.len().min(LEVELS);
        let rest = behind(self.ssas, known);
        first_and_rest(&self.dbd.types, &self.first[..known], rest, path)
    }
}

/// What the first arguments ask, each looked up.
fn looked_up_first(types: &SegTypes, ssas: &[Ssa]) -> [Option<AskedSegment>; LEVELS]
    requires { length types.now ≤ 255 }
    ensures { take (min (length ssas.now) 8) result ≡ map (looked_up types.now) (take (min (length ssas.now) 8) ssas.now) }
{
    let mut first = [None; LEVELS];
    for place in 0..ssas.len().min(LEVELS) {
        first[place] = looked_up(types, &ssas[place]);
    }
    first
}

/// What an argument asks, or None where it names no type.
fn looked_up(types: &SegTypes, ssa: &Ssa) -> Option<AskedSegment>
    requires { length types.now ≤ 255 }
    ensures { result ≡ looked_up types.now ssa.now }
{
    let number = number_named(types, &ssa.segment);
    let segment = types.numbered(number)?;
    Some(AskedSegment {
        number,
        key: asked_key(segment.key, &ssa.test),
    })
}

/// What is asked of a key of `length` bytes.
fn asked_key(length: u8, test: &KeyTest) -> AskedKey
    requires some { 1 ≤ length }
    requires short { length ≤ 32 }
    ensures { result ≡ asked_key length test.now }
{
    match test {
        KeyTest::Any => AskedKey::Any,
        KeyTest::Equal(bytes) => AskedKey::Equal(fitted_key(length, bytes.as_slice())),
        KeyTest::AtLeast(bytes) => AskedKey::AtLeast(fitted_key(length, bytes.as_slice())),
    }
}

fn is_as_asked(asked: &AskedKey, key: &Key) -> bool
    ensures { result ≡ is_as_asked asked.now key.now }
{
    match asked {
        AskedKey::Any => true,
        AskedKey::Equal(wanted) => key.cmp(wanted).is_eq(),
        AskedKey::AtLeast(least) => key.cmp(least).is_ge(),
    }
}

/// Whether the segment of this path, or one above it, meets what is asked.
fn is_met(asked: &Option<AskedSegment>, path: &Path) -> bool
    ensures { result ≡ is_met asked.now path.now }
{
    match asked {
        Some(asked) => is_met_by(asked, path.as_slice()),
        None => false,
    }
}

fn is_met_by(asked: &AskedSegment, pairs: &[(u8, Key)]) -> bool
    ensures { result ≡ is_met (Some asked.now) pairs.now }
{
    for pair in pairs {
        if pair.0 == asked.number && is_as_asked(&asked.key, &pair.1) {
            return true;
        }
    }
    false
}

/// The arguments behind the first ones.
fn behind(ssas: &[Ssa], known: usize) -> &[Ssa]
    requires { known ≤ length ssas.now }
    ensures { result.now ≡ drop known ssas.now }
{
    &ssas[known..]
}

/// Whether a path meets the first arguments, as they were looked up, and the others.
fn first_and_rest(
    types: &SegTypes,
    first: &[Option<AskedSegment>],
    rest: &[Ssa],
    path: &Path,
) -> bool
    requires { length types.now ≤ 255 }
    ensures { result ≡ (list_all (λ a. is_met a path.now) first.now && list_all (λ s. meets_ssa types.now s path.now) rest.now) }
{
    all_met(first, path) && meets_all(types, rest, path)
}

fn all_met(asked: &[Option<AskedSegment>], path: &Path) -> bool
    ensures { result ≡ list_all (λ a. is_met a path.now) asked.now }
{
    for one in asked {
        if !is_met(one, path) {
            return false;
        }
    }
    true
}

/// As [`all_met`], of arguments that are looked up here.
fn meets_all(types: &SegTypes, ssas: &[Ssa], path: &Path) -> bool
    requires { length types.now ≤ 255 }
    ensures { result ≡ list_all (λ s. meets_ssa types.now s path.now) ssas.now }
{
    for ssa in ssas {
        if !meets_ssa(types, ssa, path) {
            return false;
        }
    }
    true
}

#[tactic(auto, using(crate::proofs::LookedUp::met_is))]
fn meets_ssa(types: &SegTypes, ssa: &Ssa, path: &Path) -> bool
    requires { length types.now ≤ 255 }
    ensures { result ≡ meets_ssa types.now ssa.now path.now }
{
    is_met(&looked_up(types, ssa), path)
}

/// The key that these bytes give, padded with blanks on the right or cut to `length` bytes.
pub fn fitted_key(length: u8, bytes: &[u8]) -> Key
    requires some { 1 ≤ length }
    requires short { length ≤ 32 }
    ensures { result ≡ fitted_key length bytes.now }
{
    let mut padded = [b' '; 32];
    let size = bytes.len().min(length as usize);
    padded[..size].copy_from_slice(&bytes[..size]);
    let Some(key) = Key::read(&padded[..length as usize]) else {
        unreachable!()
    };
    key
}

/// These bytes, padded with blanks on the right or cut to `length` bytes.
pub fn fitted_bytes(alloc: Global, length: u16, bytes: &[u8]) -> Result<Bytes, Memory>
    ensures { IfOk result (λ whole. whole ≡ fitted_key length bytes.now) }
{
    let length = length as usize;
    let size = bytes.len().min(length);
    let mut whole = Vec::with_capacity(alloc, length)?;
    whole.extend_from_slice(&bytes[..size])?;
    whole.resize(length, b' ')?;
    Ok(Bytes::from_vec(whole))
}

/// The number of the type with this name, counted from 1, or 0 where there is none.
pub fn number_named(types: &SegTypes, name: &Name) -> u8
    requires { length types.now ≤ 255 }
    ensures { result ≡ number_named types.now name.now }
{
    match place_named(types.as_slice(), name) {
        Some(place) => place as u8 + 1,
        None => 0,
    }
}

/// How many bytes the data of this type has.
pub fn data_length(types: &SegTypes, number: u8) -> u16
    ensures { result ≡ data_length types.now number }
{
    match types.numbered(number) {
        Some(segment) => segment.bytes,
        None => 0,
    }
}

/// The number of the type that the last argument names.
pub fn asked_number(types: &SegTypes, ssas: &[Ssa]) -> u8
    requires { length types.now ≤ 255 }
    ensures { result ≡ asked_number types.now ssas.now }
{
    match ssas {
        [] => 0,
        [.., last] => number_named(types, &last.segment),
    }
}

fn key_asked(types: &SegTypes, test: &KeyTest) -> Option<Key>
    ensures { result ≡ key_asked types.now test.now }
{
    let KeyTest::Equal(bytes) = test else {
        return None;
    };
    let root = types.numbered(1)?;
    Some(fitted_key(root.key, bytes.as_slice()))
}

/// The key of the one root for which the first argument asks, if it does.
pub fn asked_root(types: &SegTypes, ssas: &[Ssa]) -> Option<Key>
    requires { length types.now ≤ 255 }
    ensures { result ≡ asked_root types.now ssas.now }
{
    let first = ssas.first()?;
    if number_named(types, &first.segment) != 1 {
        return None;
    }
    key_asked(types, &first.test)
}

fn place_named(types: &[SegType], name: &Name) -> Option<usize>
    ensures { result ≡ place_named types.now name.now }
{
    types.iter().position(|segment| segment.name == *name)
}
