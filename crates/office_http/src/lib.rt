//! The office over messages: the desk answers requests, connection by connection.
#![tactic(auto)]

mod answers;
mod laws;
mod replying;
mod serving;
mod two_offices;

pub use laws::{
    done_messages_stay, each_client_by_view, each_reply_by_view, quiet_clients, quiet_message,
    quiet_messages, reply_by_view, same_changes_same_view, same_view_same_bytes,
    same_view_same_clients, same_view_same_output, same_view_same_replies,
    unavailable_changes_nothing,
};
pub use office_desk::{
    Desk, Loaded, Office, Refusal, StoreFault, penalty_report, rooms_report, violation_report,
};
pub use office_requests::{End, Reply, Request, Routes, ServeFault, Served};
pub use replying::reply;
pub use serving::{AnsweringDesk, serve};
pub use sqlite::{Alter, Connection};
pub use two_offices::{AskFault, ReplyAndShares, ask_two_offices};
