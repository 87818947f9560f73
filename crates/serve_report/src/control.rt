//! A run whose streams come and go: what its control asks for line by line, and what is answered.

pub mod answer;
mod backlog;
mod clerk;
mod closable;
mod crew;
mod door;
mod entry;
mod errand;
pub mod feed;
mod holders;
mod holdings;
pub mod line;
mod listener;
mod lobby;
mod losable;
mod opener;
mod order;
mod pieces;
mod quoted;
mod run;
mod shares;
mod still_read;
mod table;
mod threads;
mod tickets;
mod voice;

pub use crate::serve::{AdmitFault, StreamRow, StreamStop};
pub(crate) use listener::{lines_file, lines_of};
pub(crate) use run::Agenda;
