//! The words of the command line: what they ask for, and what is checked of them before any file is opened.
#![tactic(auto)]

mod checks;
mod command;
mod given;
mod help;
pub mod laws;
mod live;
mod read;
mod request;
mod stream_word;

pub use checks::{Asked, Checked, WordFault, check};
pub use read::read_words;
pub use request::{FilterWords, NoRequest, Request, ServeWords};
pub use stream_word::{StreamWord, parse_word_beside};
