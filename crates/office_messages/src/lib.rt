//! The messages of a connection, and the bytes of their replies.
#![tactic(auto)]

mod allow_field;
mod connection;
mod draining;
mod fields;
mod form;
mod framing;
mod head;
mod head_end;
mod laws;
mod look;
mod names;
mod replies;
mod reply_heads;
mod request;
mod statuses;

pub use allow_field::Allow;
pub use connection::{End, MAX_MESSAGES, Machine, ServeFault, Served, serve};
pub use draining::drain;
pub use form::Form;
pub use framing::Fault;
pub use laws::{front_of_messages, one_reading, runs_are_carried, runs_keep};
pub use replies::{Content, Payload, Reply, fault_reply, fixed_reply, unavailable};
pub use reply_heads::put;
pub use request::Request;
pub use statuses::Status;
