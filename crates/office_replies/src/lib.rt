//! The replies to the office's answers: statuses, and bodies byte for byte.
#![tactic(auto)]

mod candidates;
mod changes;
mod days;
mod objects;
mod refusals;
mod views;
mod writing;

pub use candidates::{candidate_reply, cost_reply, exam_reply};
pub use changes::{
    dropped_reply, edited_reply, enrolled_reply, loaded_reply, new_draft_reply, owner_reply,
    published_reply,
};
pub use objects::{REPLY_ROOM, reply_room};
pub use refusals::refusal_reply;
pub use views::{draft_reply, text_reply};
