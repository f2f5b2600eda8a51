//! The next line of a source, or how its session ends.
ghost use Rattle.std.specs.Prelude.{◌≡◌, ◌≤◌, IfOk, IfErr, OnOk, OnErr};
ghost use Rattle.tm_edge.specs.Lines.{ServesTold, unread};
ghost use Rattle.tm_session.specs.UnreadLine.{IsUnread};

use crate::outcome::Ended;
use tm_edge::{Line, LineFault, Lines, Source};

/// The number of bytes of a line that is too long.
const BYTE_PAST: u64 = 4097;

/// Reads the next line, or none at the end of the source. Where that fails no byte is lost.
pub fn read_line<S: Source>(lines: &mut Lines, source: &mut S) -> Result<Option<Line>, Ended>
    ensures line { IfOk result (λ line. ServesTold (unread lines.old (S.left source.old)) line (unread lines.new (S.left source.new))) }
    ensures calm { OnOk result (S.faults source.new ≡ S.faults source.old) }
    ensures none_lost { OnErr result (unread lines.new (S.left source.new) ≡ unread lines.old (S.left source.old)) }
    ensures unread { IfErr result (λ ended. IsUnread ended (unread lines.old (S.left source.old)) lines.new (S.faults source.old) (S.faults source.new)) }
{
    match lines.next_line(source) {
        Ok(line) => Ok(line),
        Err(LineFault::Read) => Err(Ended::Read),
        Err(LineFault::TooLong) => Err(Ended::Limit(BYTE_PAST)),
        Err(LineFault::Memory) => Err(Ended::Memory),
    }
}
