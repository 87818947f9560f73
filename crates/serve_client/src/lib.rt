//! One client's way of a stream through a hub, and one worker's: a client reads, offers, collects and writes;
//! a worker leases, does what is granted, and settles.
//!
//! `specs/Clients.antt` says what a client comes to, `specs/Rests.antt` what is left to do of its stream
//! where the journal is full, `specs/Workers.antt` what a worker adds to its seat's calls.
#![tactic(auto)]

mod begun;
mod buffers;
pub mod clients;
mod course;
mod delivery;
mod feeding;
pub mod gate;
mod hand;
mod holding;
mod input;
pub mod laws;
mod pipeline;
pub mod post;
pub mod rest;
pub mod served;
mod serving;
pub mod spent;
pub mod stop;
pub mod workers;

pub use clients::{ClientEnd, ClientTurn, client};
pub use gate::{Clock, Gate};
pub use post::Post;
pub use rest::ClientRest;
pub use served::Served;
pub use spent::have_spent;
pub use stop::{Cause, Stop};
pub use workers::work;
