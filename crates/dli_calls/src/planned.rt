//! What a call comes to, before its record is set.
ghost use Rattle.std.specs.Prelude.{◌≡◌, None, Some};
ghost use Rattle.tm_types.specs.declared.status.Status.TheVariants.{Blank};

use model_data::Position;
use seg_rows::RecordImage;
use tm_types::{Bytes, Key, Status};

/// A record to be set.
#[derive(Debug, Drop)]
pub struct Edit {
    pub root: Key,
    /// The record's rows after the call; none where it is removed.
    pub image: RecordImage,
}

/// What a call comes to, before its record is set.
#[derive(Debug, Drop)]
pub struct Planned {
    pub status: Status,
    /// The data of the segment that a get reached.
    pub area: Option<Bytes>,
    /// Where the PCB stands after the call, where it isn't refused.
    pub position: Position,
    /// The record that the call changes.
    pub edit: Option<Edit>,
}

/// A call that gives no data and changes nothing.
pub fn answer_at(status: Status, position: Position) -> Planned
    ensures { result ≡ record { status = status; area = None; position = position; edit = None } }
{
    Planned {
        status,
        area: None,
        position,
        edit: None,
    }
}

/// A call that sets a record.
pub fn set_record(position: Position, root: Key, image: RecordImage) -> Planned
    ensures { result ≡ record { status = Blank; area = None; position = position; edit = Some (record { root = root; image = image }) } }
{
    Planned {
        status: Status::Blank,
        area: None,
        position,
        edit: Some(Edit { root, image }),
    }
}
