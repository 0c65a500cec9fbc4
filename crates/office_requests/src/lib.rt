//! The commands in the messages of a connection.
#![tactic(auto)]

mod bodies;
mod commands;
mod laws;
mod methods;
mod paths;
mod requests;
mod routes;
mod texts;

pub use bodies::{dept_body, place_body, text_body};
pub use laws::{allow_lists_the_methods, commands_are_read_back};
pub use methods::allow;
pub use office_messages::{
    Allow, Content, End, Fault, Machine, Payload, Reply, Request, ServeFault, Served, Status,
    drain, fault_reply, fixed_reply, serve, unavailable,
};
pub use requests::{CallerCommand, Refusal, read_request};
pub use routes::{Page, Routes, one_page};
pub use texts::FixedError;
