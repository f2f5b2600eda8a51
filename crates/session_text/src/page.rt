//! The lines of a page.
ghost use Rattle.std.specs.Prelude.{◌≡◌, ◌≤◌, ◌<◌, ◌+◌, ◌*◌, ◌++◌, ◌==◌, length};
ghost use Rattle.std.specs.List.{suffix_len};
ghost use Rattle.model_system.specs.Pages.{IsPage};
ghost use Rattle.model_messages.specs.MessageCalls.{without_blanks};
ghost use Rattle.model_session.specs.Text as text;

use crate::Printed;
use crate::lines::{ANSWER_ROOM, add_about};
use model_system::Page;
use tm_types::Name;

/// The room that the line of a row needs at most.
const ROW_ROOM: usize = 86;

/// The room that the lines of a page need at most.
pub const PAGE_ROOM: usize = ANSWER_ROOM + 24 * ROW_ROOM;

/// Adds the lines of a page that shows a terminal's reply of this number: one for each row that isn't
/// blank.
pub fn page_lines(out: &mut Printed, terminal: &Name, number: u64, page: &Page)
    requires { PAGE_ROOM ≤ out.old.room }
    ensures { out.new.text ≡ out.old.text ++ text.page_text terminal.now number page.now }
{
    add_about(out, b"OUT", terminal, number);
    out.push(b" PAGE\n");
    add_rows(out, page.rows());
}

/// Adds the lines of the rows of a page.
fn add_rows(out: &mut Printed, rows: &[[u8; 80]])
    requires page { IsPage rows.now }
    requires room { 24 * ROW_ROOM ≤ out.old.room }
    ensures { out.new.text ≡ out.old.text ++ text.rows_text 1 rows.now }
{
    for (index, row) in rows.iter().enumerate() {
        add_row(out, 1 + index as u8, without_blanks(row));
    }
}

/// Adds the line of a row without the blanks at its end; a blank one has none.
fn add_row(out: &mut Printed, number: u8, row: &[u8])
    requires row { length row.now ≤ 80 }
    requires room { ROW_ROOM ≤ out.old.room }
    ensures text { out.new.text ≡ out.old.text ++ text.row_text number row.now }
    ensures room { out.old.room ≤ out.new.room + ROW_ROOM }
{
    match row {
        [] => {}
        [_, ..] => {
            out.push(b"+ ");
            out.push(&[b'0' + number / 10 % 10, b'0' + number % 10, b' ']);
            out.push(row);
            out.push(b"\n");
        }
    }
}

/// The row without the blanks at its end.
#[tactic(auto, using(tm_types::proofs::Parted::trimmed_at))]
fn without_blanks(row: &[u8]) -> &[u8]
    ensures value { result.now ≡ without_blanks row.now }
    ensures short { length result.now ≤ length row.now }
{
    &row[..row_end(row)]
}

fn row_end(row: &[u8]) -> usize
    ensures { result + suffix_len (λ byte. byte == 32) row.now ≡ length row.now }
{
    let mut end = row.len();
    while end > 0 && row[end - 1] == b' ' {
        end -= 1;
    }
    end
}
