//! Sessions: streams that are served from epoch to epoch, each by a client's thread, with workers beside.
//!
//! [`serve_session`] serves streams that begin together, and tells what became of each ([`Served`]), or why
//! it tells nothing of them ([`SessionFault`]). [`serve_session_or_return`] gives back what no frame was read
//! of, and [`serve_session_told`] tells a [`Chronicle`] of each epoch too.
//!
//! [`serve_live`] serves streams that come and go. A [`Door`] gives it each [`Request`], and is told its
//! [`Answer`], and how its stream stands where it asks for that ([`Standing`]). As a [`Bell`] it tells when a
//! request is there, and as a [`Chronicle`] it is told of each epoch in which the streams are served.
//!
//! `specs/Sessions.antt` says what the streams of a session come to, `specs/Live.antt` what is told of
//! streams that come and go, `specs/History.antt` what the epochs are in which these are served. Clients and
//! workers are those of `serve_client`.
#![tactic(auto)]

mod bounds;
pub mod chronicle;
pub mod door;
pub mod laws;
pub mod live;
pub mod request;
pub mod session;
mod setting;

pub use chronicle::Chronicle;
pub use door::{Bell, Door};
pub use live::serve_live;
pub use request::{Answer, Request, Standing};
pub use serve_client::{
    Cause, ClientEnd, ClientRest, ClientTurn, Clock, Gate, Served, Stop, client, work,
};
pub use session::{
    SessionFault, Stream, Unended, serve_session, serve_session_or_return, serve_session_told,
};
