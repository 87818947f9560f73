//! The machine that serves streams of frames: workers that are leased one stream at a time, each stream under
//! the account of a constant bandwidth server, the earliest deadline first.
//!
//! `specs/Rules.antt` says which replies are right after which past, and `specs/Headline.antt` what follows
//! of every run. [`laws`] has each law of the definitions as a function.
//!
//! [`Machine`] does the bands itself; [`Desk`] gives jobs away with their leases, and `specs/Desk.antt` says
//! which events its calls are and which jobs they move.
#![tactic(auto)]

mod collected;
pub mod counts;
pub mod desk;
pub mod event;
mod grant;
pub mod held;
pub mod laws;
pub mod machine;
pub mod newcomer;
pub mod refusal;
mod schedule;
pub mod setup;
pub mod spec;
mod stream;
pub mod tally;

pub use collected::Collected;
pub use counts::Counts;
pub use desk::Desk;
pub use event::{Event, Reply};
pub use held::Held;
pub use machine::{CoreError, Machine, run};
pub use newcomer::Newcomer;
pub use refusal::Refusal;
pub use setup::{Setup, SetupError};
pub use spec::StreamSpec;
pub use tally::Tally;
