//! What a session prints: a text with room that was taken beforehand, the line of each answer, and the lines of a reply
//! and of a page.
//!
//! Proved: each function adds the text that the definitions of `model_session` (specs/Text) name, so the text of an
//! answer is that of its entry. Where the room is there, printing takes no memory; only the lines of a reply, which may
//! be long, take their own.
#![tactic(auto)]

pub use commands::command_text;
pub use lines::{
    ANSWER_ROOM, TURN_ROOM, WORD_ROOM, ack_line, bad_line, held_line, input_line, none_line,
    quiet_line, shown_word, stopped_line, turned_line, unknown_line,
};
pub use outages::{
    armed_line, bad_command_line, checkpoint_line, down_line, image_line, opened_line, power_line,
    up_line,
};
pub use page::{PAGE_ROOM, page_lines};
pub use printed::Printed;
pub use reply::reply_lines;

mod commands;
mod isolation;
mod lines;
mod outages;
mod page;
mod printed;
mod reply;
