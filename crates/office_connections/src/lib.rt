//! Connections over sockets, one after another, each with its timeouts.
#![tactic(auto)]

mod accepting;
mod clients;
mod lines;
mod listening;
mod pace;
mod paced;
mod running;
mod serving;
mod shutting;
mod timed;

pub use accepting::{Plan, Service, accept_all};
pub use clients::Clients;
pub use listening::{Listening, MAX_PORT, Ports, Sockets, announce};
pub use running::{RunFault, announce_and_accept};
pub use serving::answer_client;
pub use shutting::MayShut;
pub use timed::Timed;
