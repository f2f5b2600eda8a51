//! Rows of a database.
ghost use Rattle.std.specs.Prelude.{◌≡◌};

use crate::Path;
use tm_types::{Bytes, Memory};

/// A row of a database: the path of a segment, and its data.
#[derive(Debug, Drop)]
pub struct Row {
    pub path: Path,
    pub bytes: Bytes,
}

impl Clone for Row {
    ghost is_clone = { λ row copy. copy ≡ row };

    fn clone(&self) -> Result<Row, Memory> {
        Ok(Row {
            path: self.path.clone()?,
            bytes: self.bytes.clone()?,
        })
    }
}
