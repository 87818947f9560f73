//! Session scripts: they first set up streams, and then run events on them, from the line `start` on.

mod arrival;
pub mod digits;
pub mod line;
pub mod pieces;
pub mod preparation;
pub mod run_command;
pub mod running;
pub mod setup_command;
pub mod stream_command;
pub mod stream_settings;
pub mod streams;
pub mod word;
