//! The keys of segments.
ghost use Rattle.std.specs.Prelude.{◌≡◌, ◌≤◌, ◌<◌, ◌+◌, ℕ, slice_index, ◌↔◌, IsTrue, IsSome, IfSome, nat_eq};
ghost use Rattle.std.specs.Ordering.{nat_cmp, as_partial_cmp};
ghost use Rattle.std.specs.Cmp.{partial_equiv_from_equiv};
ghost use Rattle.std.specs.Cmp.Lexicographic.{pointwise, slice_cmp, nat_list_eq_equiv, nat_list_cmp_total, texts_po, texts_ties};
ghost use Rattle.std.proofs.Common.{rules};
ghost use Rattle.tm_types.specs.Key.{IsKey, spelled};

use std::cmp::Ordering;
use std::marker::Model;

/// The most bytes that a key has.
pub const KEY_LIMIT: usize = 32;

/// The key of a segment: 1 to 32 bytes.
///
/// Keys are compared and ordered by their bytes.
#[derive(Clone, Copy, Debug)]
pub struct Key {
    len: u8,
    bytes: [u8; 32],
}

impl Model for Key {
    ghost use Rattle.std.specs.Prelude.{◌≡◌, ◌≤◌, ◌++◌, ℕ, List, length, take, drop};
    ghost use Rattle.tm_types.specs.Key.{key_padding};
    ghost use Rattle.tm_types.specs.PaddedKey.{padded_key};

    ghost Value = { List ℕ };

    ghost view = { λ k. take k.len k.bytes };

    ghost invariant = { λ k. (1 ≤ k.len) × (k.len ≤ 32) × (length k.bytes ≡ 32) × (drop k.len k.bytes ≡ drop k.len key_padding) };

    ghost inverse = { λ bytes. record { len = length bytes; bytes = bytes ++ drop (length bytes) key_padding } };

    ghost inverse_ok = { λ k h i. let fields = padded_key k.len k.bytes h.1 h.2 h.3 in record { len = fields.0 i; bytes = fields.1 i } };
}

// Eight bytes as a number, the first counting most.
fn word(bytes: &[u8; 32], at: usize) -> u64
    requires { at + 8 ≤ 32 }
    ensures value { result ≡ spelled bytes.now at 0 0 8 }
    ensures bytes { (i : ℕ) → slice_index bytes.now i < 256 }
{
    u64::from_be_bytes([
        bytes[at],
        bytes[at + 1],
        bytes[at + 2],
        bytes[at + 3],
        bytes[at + 4],
        bytes[at + 5],
        bytes[at + 6],
        bytes[at + 7],
    ])
}

impl Key {
    /// The key with these bytes, or None exactly where they are fewer than 1 or more than 32.
    pub fn read(bytes: &[u8]) -> Option<Key>
        ensures valid { IsSome result ↔ IsKey bytes.now }
        ensures value { IfSome result (λ key. key ≡ bytes.now) }
    {
        if bytes.is_empty() || bytes.len() > KEY_LIMIT {
            return None;
        }
        let mut padded = [0; KEY_LIMIT];
        padded[..bytes.len()].copy_from_slice(bytes);
        Some(Key {
            len: bytes.len() as u8,
            bytes: padded,
        })
    }

    /// The bytes of the key.
    pub fn as_bytes(&self) -> &[u8]
        ensures value { result.now ≡ self.now }
        ensures valid { IsKey self.now }
    {
        &self.bytes[..self.len as usize]
    }
}

impl PartialEq for Key {
    ghost eq = { pointwise nat_eq };

    ghost laws = { partial_equiv_from_equiv nat_list_eq_equiv };

    fn eq(&self, other: &Key) -> bool {
        self.as_bytes() == other.as_bytes()
    }
}

impl Eq for Key {
    ghost laws = { nat_list_eq_equiv };
}

impl PartialOrd for Key {
    ghost partial_cmp = { as_partial_cmp (slice_cmp nat_cmp) };

    ghost laws = { texts_po };

    fn partial_cmp(&self, other: &Key) -> Option<Ordering> {
        Some(self.cmp(other))
    }
}

impl Ord for Key {
    ghost cmp = { slice_cmp nat_cmp };

    ghost total = { nat_list_cmp_total };

    ghost matches_partial_cmp = { Prim.search rules };

    ghost matches_eq = { texts_ties };

    // Eight bytes at once; those behind a key are zeros, and come before all others.
    fn cmp(&self, other: &Key) -> Ordering {
        for index in 0..4usize {
            let mine = word(&self.bytes, index * 8);
            let theirs = word(&other.bytes, index * 8);
            if mine != theirs {
                return mine.cmp(&theirs);
            }
        }
        self.len.cmp(&other.len)
    }
}
