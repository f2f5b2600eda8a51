//! The name of a pool's table, by which a pool, its passes and the locked value belong together.
ghost use Rattle.atomic_table.specs.Seated.{TableId};

use std::marker::Brand;

/// Names the table of one pool. A caller takes a type of this kind as a parameter, and picks the table where it is called
/// with `Brand`.
pub trait Naming {
    ghost use Rattle.atomic_table.specs.Seated.{TableId};

    ghost table: { TableId };
}

impl Naming for Brand {
    ghost use Rattle.pool_pass.specs.Passes.{no_table};

    ghost table = { no_table };
}
