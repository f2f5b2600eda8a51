//! Paths of segments, in hierarchic order.
ghost use Rattle.std.specs.Prelude.{◌≡◌, ◌↔◌, ◌≤◌, ◌-◌, [], ◌∷◌, ◌++◌, length, take, slice_get, IsTrue, IsSome, IfSome, IfOk, OnOk, OnErr, ◌<◌};
ghost use Rattle.std.specs.Option.{option_copied};
ghost use Rattle.std.specs.Slice.Iter.{iter_rest};
ghost use Rattle.std.specs.Ordering.{eq_by_cmp, as_partial_cmp};
ghost use Rattle.std.specs.Cmp.{partial_equiv_from_equiv, partial_order_from_total, eq_by_cmp_equiv};
ghost use Rattle.std.proofs.Common.{rules, refl};
ghost use Rattle.model_data.specs.Path.{path_cmp, end_type, root_of};
ghost use Rattle.model_data.specs.PathOrder.{path_total};

use std::alloc::Global;
use std::cmp::Ordering;
use std::marker::Model;
use std::slice;
use tm_types::{Key, Memory};

/// The path of a segment: from the root down to it, the type number and the key of each segment.
#[derive(Debug, Drop)]
pub struct Path {
    pairs: Vec<(u8, Key)>,
}

impl Model for Path {
    ghost use Rattle.std.specs.Prelude.{ℕ, List};

    ghost Value = { List (ℕ × List ℕ) };

    ghost view = { λ p. p.pairs.items };
}

impl Path {
    /// The path of no segment. This takes no memory.
    pub fn new(alloc: Global) -> Path
        ensures { result ≡ [] }
    {
        Path {
            pairs: Vec::new(alloc),
        }
    }

    /// The path with these type numbers and keys, from the root down.
    pub fn copied(alloc: Global, pairs: &[(u8, Key)]) -> Result<Path, Memory>
        ensures { IfOk result (λ path. path ≡ pairs.now) }
    {
        Ok(Path {
            pairs: Vec::from_slice(alloc, pairs)?,
        })
    }

    /// Goes down to a segment with this type number and key. Where it answers `Memory`, the path stays.
    pub fn push(&mut self, segment: u8, key: Key) -> Result<(), Memory>
        ensures ok { OnOk result (self.new ≡ self.old ++ (segment, key) ∷ []) }
        ensures err { OnErr result (self.new ≡ self.old) }
    {
        self.pairs.push((segment, key))?;
        Ok(())
    }

    /// How many segments the path has.
    pub fn len(&self) -> usize
        ensures { result ≡ length self.now }
    {
        self.pairs.len()
    }

    /// Whether it is the path of no segment.
    pub fn is_empty(&self) -> bool
        ensures { IsTrue result ↔ (self.now ≡ []) }
    {
        self.pairs.is_empty()
    }

    /// The type numbers and keys, from the root down.
    pub fn as_slice(&self) -> &[(u8, Key)]
        ensures { result.now ≡ self.now }
    {
        &self.pairs
    }

    /// The type number of the segment to which the path leads; 0 for the path of no segment.
    pub fn segment(&self) -> u8
        ensures { result ≡ end_type self.now }
    {
        match self.pairs.as_slice() {
            [] => 0,
            [.., last] => last.0,
        }
    }

    /// The key of the root, which is that of the record.
    pub fn root(&self) -> Option<Key>
        ensures some { IsSome result ↔ (0 < length self.now) }
        ensures value { IfSome result (λ key. key ≡ root_of self.now) }
    {
        match self.pairs.as_slice() {
            [] => None,
            [first, ..] => Some(first.1),
        }
    }

    /// How this path compares to another in hierarchic order: pair by pair, the type before the
    /// key, keys by their bytes, and a path before those that go on from it.
    pub fn order(&self, other: &Path) -> Ordering
        ensures { result ≡ path_cmp self.now other.now }
    {
        self.pairs.as_slice().cmp(other.pairs.as_slice())
    }
}

impl Clone for Path {
    ghost is_clone = { λ path copy. copy ≡ path };

    fn clone(&self) -> Result<Path, Memory> {
        let pairs = Vec::from_slice(self.pairs.allocator().clone()?, &self.pairs)?;
        Ok(Path { pairs })
    }
}

impl PartialEq for Path {
    ghost eq = { eq_by_cmp path_cmp };

    ghost laws = { partial_equiv_from_equiv (eq_by_cmp_equiv path_total) };

    fn eq(&self, other: &Path) -> bool {
        self.order(other).is_eq()
    }
}

impl Eq for Path {
    ghost laws = { eq_by_cmp_equiv path_total };
}

impl PartialOrd for Path {
    ghost partial_cmp = { as_partial_cmp path_cmp };

    ghost laws = { partial_order_from_total path_total };

    fn partial_cmp(&self, other: &Path) -> Option<Ordering> {
        Some(self.order(other))
    }
}

impl Ord for Path {
    ghost cmp = { path_cmp };

    ghost total = { path_total };

    ghost matches_partial_cmp = { Prim.search rules };

    ghost matches_eq = { λ x y. refl };

    fn cmp(&self, other: &Path) -> Ordering {
        self.order(other)
    }
}
