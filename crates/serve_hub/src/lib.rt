//! A [`Book`] is a desk with the journal of what it accepted, entry by entry. A [`Hub`] is a book under one
//! lock, which threads share by the seats of its streams and workers.
//!
//! `specs/Journal.antt` says which events an entry stands for, `specs/Books.antt` what a book keeps, and
//! `specs/Answers.antt` how it answers. `specs/Seats.antt` says what the seats of a hub keep,
//! `specs/Calls.antt` how its calls leave them, and `specs/Ends.antt` what is left of it.
#![tactic(auto)]

mod agree;
pub mod book;
mod calls;
pub mod chain_part;
pub mod ended;
pub mod entry;
pub mod epoch;
pub mod error;
pub mod hub;
pub mod hub_load;
pub mod laws;
pub mod limits;
pub mod moments;
pub mod offer;
pub mod owner;
pub mod refusal;
pub mod refused;
mod rest;
mod room;
pub mod room_left;
mod shared;
pub mod stream_deadline;
pub mod stream_seat;
pub mod unlocked;
pub mod work_seat;

pub use book::Book;
pub use chain_part::ChainPart;
pub use ended::{Ended, Fault, Mismatch, Retired};
pub use entry::{Act, Entry, Seat, Settled};
pub use epoch::Epoch;
pub use error::HubError;
pub use hub::{Hub, Opened, ReopenRefused, Reopened};
pub use hub_load::HubLoad;
pub use laws::{joined_law, specs_law};
pub use moments::Moments;
pub use offer::Offer;
pub use owner::EpochOwner;
pub use refusal::{Came, Refusal};
pub use refused::{AdmitRefused, CollectRefused, LeaseRefused, OfferRefused};
pub use room_left::RoomLeft;
pub use stream_deadline::StreamDeadline;
pub use stream_seat::StreamSeat;
pub use unlocked::Unlocked;
pub use work_seat::WorkSeat;
