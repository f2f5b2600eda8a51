//! Values that are lists of items.

/// A value whose meaning to a pool is a list of items. The list exists in proofs alone.
pub trait Listed {
    type Item;

    ghost use Rattle.std.specs.Prelude.{List};

    ghost list: { Self → List Self.Item };
}
