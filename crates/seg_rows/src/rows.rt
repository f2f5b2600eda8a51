//! The rows of a database, however they are kept.
ghost use Rattle.std.specs.Prelude.{◌≡◌, IfErr, OnOk, OnErr, None};
ghost use Rattle.std.specs.Borrow.{sem};
ghost use Rattle.std.specs.Io.BufRead.{Rests};
ghost use Rattle.std.specs.Option.{option_copied};
ghost use Rattle.seg_rows.specs.declared.rows.RowsRefused.TheVariants.{Memory};

use crate::RecordImage;
use std::alloc::AllocError;
use thiserror::Error;
use tm_types::Key;

/// Why a record isn't read or set.
#[derive(Debug, Drop, Error)]
pub enum RowsRefused {
    /// The database has as many roots as it may have.
    #[error("too many roots")]
    RootLimit,
    /// The record has more than 4,000 bytes for each of its sectors.
    #[error("the record is too long")]
    RecordTooLong,
    /// A device failed.
    #[error("the disk failed")]
    Disk,
    /// This sector doesn't spell a record of its root.
    #[error("sector {0} is damaged")]
    Damaged(u32),
    /// There is no memory.
    #[error("no memory")]
    Memory,
}

impl From<AllocError> for RowsRefused {
    ghost from_gives = { λ _ e. e ≡ Memory };

    fn from(_error: AllocError) -> RowsRefused {
        RowsRefused::Memory
    }
}

/// The rows of one database, in hierarchic order, however they are kept.
///
/// Rows that are kept elsewhere are read when they are asked for. Where it isn't told what was
/// written there, a record is what was read: from then on it is so in the rows.
pub trait Rows {
    ghost use Rattle.std.specs.Prelude.{ℕ, Bool, List};
    ghost use Rattle.tm_types.specs.declared.dbd.Dbd.{Dbd};
    ghost use Rattle.model_data.specs.declared.row.Row.{Row};
    ghost use Rattle.model_data.specs.Rows.{record_of, next_root, with_record, IsImage, AreRows};
    ghost use Rattle.seg_rows.specs.RowsRefused.{set_refusal, RefusesToSet};
    ghost use Rattle.seg_rows.specs.ReadRows.{AreReadOn, IsRecordRead, HasReadRecord};

    /// The database whose rows these are.
    ghost database: { Self → Dbd };

    /// The rows.
    ghost rows: { Self → List Row };

    /// Whether what is kept elsewhere is told as it was written.
    ghost tells: { Self → Bool };

    /// How often a device has failed.
    ghost faults: { Self → ℕ };

    /// What reading may leave.
    ghost reads: { Self → Self → Type 0 };

    /// Reading nothing is reading.
    ghost read_none: { (a : Self) → reads a a };

    /// Reading goes on.
    ghost read_on: { (a b c : Self) → reads a b → reads b c → reads a c };

    /// What stays whatever is read.
    ghost read_same: { (a b : Self) → reads a b → AreReadOn (database a) (database b) (rows a) (rows b) (tells a) (tells b) (faults a) (faults b) };

    /// The record of this root, or None exactly where there is no such root.
    ///
    /// It may be refused as `Disk`, only where a device failed, as `Damaged`, never where what is
    /// kept elsewhere is told as it was written, and as `Memory`. What was read is the record in the
    /// rows from then on, and all others stay.
    fn record(&mut self, root: &Key) -> Result<Option<&RecordImage>, RowsRefused>
        ensures found { IsRecordRead (database self.old) (tells self.old) root.now (rows self.old) result }
        ensures valid { AreRows (database self.old) (rows self.old) }
        ensures* left { sem 𝓛 (Rests Self.row self.entry (λ new. HasReadRecord (reads self.old new) (tells self.old) root.now (rows self.old) (rows new) (faults self.old) (faults new) result)) };

    /// The first root after this key, or of all, or None exactly where there is none.
    fn next_root(&self, after: Option<&Key>) -> Option<Key>
        ensures value { result ≡ next_root (rows self.now) (option_copied after.entry) }
        ensures valid { AreRows (database self.now) (rows self.now) };

    /// Puts the image in place of the record of this root; an image without rows removes it. All
    /// other records stay.
    ///
    /// A refusal changes nothing. It is `RootLimit` where the record would be one root more than
    /// the database may have, else `RecordTooLong` where the image is too long; `Memory` may come
    /// in place of either.
    fn set(&mut self, root: &Key, image: RecordImage) -> Result<(), RowsRefused>
        requires { IsImage (database self.old) root.now image }
        ensures replaced { OnOk result (rows self.new ≡ with_record root.now image (rows self.old)) }
        ensures kept { OnErr result (self.new ≡ self.old) }
        ensures accepted { OnOk result (set_refusal (database self.old) root.now image (rows self.old) ≡ None) }
        ensures refused { IfErr result (RefusesToSet (set_refusal (database self.old) root.now image (rows self.old))) }
        ensures database { database self.new ≡ database self.old }
        ensures tells { tells self.new ≡ tells self.old }
        ensures faults { faults self.new ≡ faults self.old }
        ensures valid { AreRows (database self.new) (rows self.new) };
}
