//! The lines of a reply.
ghost use Rattle.std.specs.Prelude.{◌≡◌, ◌≤◌, ◌++◌, length, take, OnOk, OnErr};
ghost use Rattle.model_session.specs.Text.{segments_text, reply_text, line_end};

use crate::Printed;
use crate::lines::{ANSWER_ROOM, add_about};
use tm_types::{Memory, Name, Reply, Segments};

/// The room that the line of a segment needs at most.
const SEGMENT_ROOM: usize = 2000;

/// Adds the lines of a reply. They take their own memory; without it the text stays as it was.
pub fn reply_lines(out: &mut Printed, terminal: &Name, reply: &Reply) -> Result<(), Memory>
    ensures ok { OnOk result (out.new.text ≡ out.old.text ++ reply_text terminal.now reply.now) }
    ensures err { OnErr result (out.new.text ≡ out.old.text) }
{
    let start = out.len();
    let added = add_reply(out, terminal, reply);
    if added.is_err() {
        out.truncate(start);
    }
    added
}

/// The same, but without memory some of the lines may stand behind the text.
fn add_reply(out: &mut Printed, terminal: &Name, reply: &Reply) -> Result<(), Memory>
    ensures ok { OnOk result (out.new.text ≡ out.old.text ++ reply_text terminal.now reply.now) }
    ensures err { OnErr result (take (length out.old.text) out.new.text ≡ out.old.text) }
{
    out.make_room(ANSWER_ROOM)?;
    add_about(out, b"OUT", terminal, reply.number);
    out.push(b" ");
    add_segments(out, &reply.segments)
}

#[tactic(auto, using(crate::proofs::SegmentLines::segment_steps))]
fn add_segments(out: &mut Printed, segments: &Segments) -> Result<(), Memory>
    ensures ok { OnOk result (out.new.text ≡ out.old.text ++ segments_text segments.now) }
    ensures err { OnErr result (take (length out.old.text) out.new.text ≡ out.old.text) }
{
    let Some(first) = segments.get(0) else {
        return add_line(out, b"", b"");
    };
    add_line(out, b"", first.text())?;
    for index in 1..segments.len() {
        match segments.get(index) {
            Some(segment) => add_line(out, b"+ ", segment.text())?,
            None => unreachable!(),
        }
    }
    Ok(())
}

/// Adds a line; without memory nothing is added.
fn add_line(out: &mut Printed, mark: &[u8], text: &[u8]) -> Result<(), Memory>
    requires mark { length mark.now ≤ 2 }
    requires text { length text.now ≤ 1996 }
    ensures ok { OnOk result (out.new.text ≡ out.old.text ++ mark.now ++ text.now ++ line_end) }
    ensures err { OnErr result (out.new.text ≡ out.old.text) }
{
    out.make_room(SEGMENT_ROOM)?;
    out.push(mark);
    out.push(text);
    out.push(b"\n");
    Ok(())
}
