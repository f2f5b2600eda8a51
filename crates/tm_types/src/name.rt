//! The names of the system.
ghost use Rattle.std.specs.Prelude.{◌≡◌, ◌<◌, ℕ, slice_index, ◌↔◌, Some, IsTrue, IsSome, IfSome, nat_eq, refl};
ghost use Rattle.std.specs.Ordering.{nat_cmp};
ghost use Rattle.std.specs.Cmp.{partial_equiv_from_equiv};
ghost use Rattle.std.specs.Cmp.Rules.{hashing};
ghost use Rattle.std.specs.Hash as fed;
ghost use Rattle.std.proofs.Common.{rules};
ghost use Rattle.std.specs.Cmp.Lexicographic.{pointwise, slice_cmp, nat_list_eq_equiv, nat_list_cmp_total, texts_po, texts_ties};
ghost use Rattle.std.specs.List.{list_all};
ghost use Rattle.tm_types.specs.Key.{spelled};
ghost use Rattle.tm_types.specs.Name.{IsName, is_name_byte};

use std::cmp::Ordering;
use std::fmt;
use std::fmt::Write as _;
use std::hash::{Hash, Hasher};
use std::marker::Model;

/// The most bytes that a name has.
pub const NAME_LIMIT: usize = 8;

/// A name of the system: 1 to 8 bytes, each of them A to Z, 0 to 9, `$`, `#` or `@`.
///
/// Names are compared and ordered by their bytes.
#[derive(Clone, Copy)]
pub struct Name {
    len: u8,
    bytes: [u8; 8],
}

impl Model for Name {
    ghost use Rattle.std.specs.Prelude.{◌≡◌, ◌≤◌, ◌++◌, ℕ, List, length, take, drop};
    ghost use Rattle.tm_types.specs.Name.{IsName, name_padding};
    ghost use Rattle.tm_types.specs.PaddedName.{padded_name};

    ghost Value = { List ℕ };

    ghost view = { λ n. take n.len n.bytes };

    ghost invariant = { λ n. (n.len ≤ 8) × (length n.bytes ≡ 8) × IsName (take n.len n.bytes) × (n.bytes ≡ take n.len n.bytes ++ drop n.len name_padding) };

    ghost inverse = { λ bytes. record { len = length bytes; bytes = bytes ++ drop (length bytes) name_padding } };

    ghost inverse_ok = { λ n h i. let fields = padded_name n.len n.bytes h.1 h.0 h.3 in record { len = fields.0 i; bytes = fields.1 i } };
}

// The eight bytes as a number, the first counting most.
fn word(bytes: &[u8; 8]) -> u64
    ensures value { result ≡ spelled bytes.now 0 0 0 8 }
    ensures bytes { (i : ℕ) → slice_index bytes.now i < 256 }
{
    u64::from_be_bytes([
        bytes[0], bytes[1], bytes[2], bytes[3], bytes[4], bytes[5], bytes[6], bytes[7],
    ])
}

impl Name {
    /// The name with these bytes, or None exactly where they are no name.
    pub fn read(bytes: &[u8]) -> Option<Name>
        ensures valid { IsSome result ↔ IsName bytes.now }
        ensures value { IfSome result (λ name. name ≡ bytes.now) }
    {
        if bytes.is_empty() || bytes.len() > NAME_LIMIT || !are_name_bytes(bytes) {
            return None;
        }
        let mut padded = [0; NAME_LIMIT];
        padded[..bytes.len()].copy_from_slice(bytes);
        Some(Name {
            len: bytes.len() as u8,
            bytes: padded,
        })
    }

    /// The bytes of the name.
    pub fn as_bytes(&self) -> &[u8]
        ensures value { result.now ≡ self.now }
        ensures valid { IsName self.now }
    {
        &self.bytes[..self.len as usize]
    }
}

impl PartialEq for Name {
    ghost eq = { λ a b. pointwise nat_eq a b };

    ghost laws = { partial_equiv_from_equiv nat_list_eq_equiv };

    fn eq(&self, other: &Name) -> bool
        ensures eq { result ≡ pointwise nat_eq self.now other.now }
        ensures same { IsTrue result ↔ (self.now ≡ other.now) }
    {
        let mine = word(&self.bytes);
        let theirs = word(&other.bytes);
        mine == theirs && self.len == other.len
    }
}

impl Eq for Name {
    ghost laws = { nat_list_eq_equiv };
}

impl PartialOrd for Name {
    ghost partial_cmp = { λ a b. Some (slice_cmp nat_cmp a b) };

    ghost laws = { texts_po };

    fn partial_cmp(&self, other: &Name) -> Option<Ordering> {
        Some(self.cmp(other))
    }
}

impl Ord for Name {
    ghost cmp = { λ a b. slice_cmp nat_cmp a b };

    ghost total = { nat_list_cmp_total };

    ghost matches_partial_cmp = { λ a b. refl };

    ghost matches_eq = { texts_ties };

    // Eight bytes at once; those behind a name are zeros, and come before all others.
    fn cmp(&self, other: &Name) -> Ordering {
        let mine = word(&self.bytes);
        let theirs = word(&other.bytes);
        if mine != theirs {
            return mine.cmp(&theirs);
        }
        self.len.cmp(&other.len)
    }
}

impl Hash for Name {
    ghost hash_input = { λ name. fed.slice (λ b. fed.u8 b) name };

    ghost respects_eq = { Prim.search (hashing, rules) };

    fn hash<H: Hasher>(&self, state: &mut H) {
        self.as_bytes().hash(state);
    }
}

impl fmt::Debug for Name {
    fn fmt<W: fmt::Write>(&self, f: &mut fmt::Formatter<W>) -> fmt::Result {
        for &b in self.as_bytes() {
            f.write_char(b as char)?;
        }
        Ok(())
    }
}

fn are_name_bytes(bytes: &[u8]) -> bool
    ensures { result ≡ list_all is_name_byte bytes.now }
{
    bytes.iter().all(|&b| is_name_byte(b))
}

/// Whether a name may have the byte: A to Z, 0 to 9, `$`, `#` and `@`.
pub fn is_name_byte(b: u8) -> bool
    ensures { result ≡ is_name_byte b }
{
    b.is_ascii_uppercase() || b.is_ascii_digit() || b == b'$' || b == b'#' || b == b'@'
}
